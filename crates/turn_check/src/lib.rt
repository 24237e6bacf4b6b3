// The lines of a page that is to be turned: which they are, and whether they fit their counters.
#![tactic(auto)]

ghost use Rattle.std.specs.Prelude.{◌≡◌, cond, ◌+◌, ◌*◌, ◌≤◌, length};
ghost use Rattle.std.specs.Iterator.{YieldsFirst, item_count};
ghost use Rattle.bits.specs.Bits.{set_bits};
ghost use Rattle.counter.specs.Counter.{written_from};
ghost use Rattle.control.specs.Control.{control_length, is_open, turn_mask};
ghost use Rattle.turn_check.specs.FirstBad.{first_bad};

// The places still to turn, as set bits: of an open page those of its mask, else those of the written lines.
pub fn places(control: &[u8], p: usize, minors: &[u8]) -> u64
    requires { (length control.now ≡ control_length) × (length minors.now ≡ 64) }
    ensures { set_bits result ≡ cond (is_open control.now p) (set_bits (turn_mask control.now))
        (written_from 0 minors.now) }
{
    if control::is_open(control, p as u64) {
        return control::turn_mask(control);
    }
    turn_block::written_mask(minors)
}

// The set bits of a number, the lowest first.
#[derive(Drop)]
struct SetBits(u64);

impl Iterator for SetBits {
    type Item = usize;

    ghost next_gives = { YieldsFirst (λ s. set_bits s.0) };

    ghost remaining = { item_count (λ s. set_bits s.0) };

    fn next(&mut self) -> Option<usize> {
        if self.0 == 0 {
            return None;
        }
        let j = bits::lowest(self.0);
        self.0 = bits::without_lowest(self.0);
        Some(j)
    }
}

// The first of these lines of page p whose minor is 0, or whose data cell has other side bytes.
pub fn bad_line(
    family: u64,
    keys: &[u8],
    array: &[u8],
    p: usize,
    major: u64,
    minors: &[u8],
    mask: u64,
) -> Option<usize>
    requires { (length keys.now ≡ 48) × ((72 * (64 * p + 64) ≤ length array.now) × (length minors.now ≡ 64)) }
    ensures { result ≡ first_bad family keys.now array.now p major minors.now (set_bits mask) }
{
    for j in SetBits(mask) {
        let line = 64 * p + j;
        let minor = u64::from(minors[j]);
        if minor == 0 || !line_text::side_ok(family, keys, array, line, major, minor) {
            return Some(line);
        }
    }
    None
}

// The minors of a counter block as bytes, and back.
#![tactic(auto)]

ghost use Rattle.std.specs.Prelude.{◌≡◌, ℕ, ◌+◌, ◌*◌, ◌^◌, ◌<◌, ◌≤◌, length, get_or};
ghost use Rattle.words.specs.Bytes.{number, digits, part, put};
ghost use Rattle.counter.specs.Counter.{counter_block, minors};

use words::Word;

// Eight digits of base 128 as digits of base 256: the upper half of the digits moves up, then that of each half, then of each quarter.
fn spread(x: u64) -> u64
    requires { x < 128 ^ 8 }
    ensures { result ≡ number 256 (digits 128 8 x) }
{
    let halves = x + (x & 0x00FF_FFFF_F000_0000) * 15;
    let quarters = halves + (halves & 0x0FFF_C000_0FFF_C000) * 3;
    quarters + (quarters & 0x3F80_3F80_3F80_3F80)
}

// Writes the minors of a block, a byte each.
pub fn unpack(block: &[u8], out: &mut [u8])
    requires { (length block.now ≡ 64) × (length out.old ≡ 64) }
    ensures { out.new ≡ minors block.now }
{
    for g in 0..8 {
        let w = u64::load(block, 7 + 7 * g) / 256;
        u64::store(out, 8 * g, spread(w));
    }
}

// The number of eight minors, a byte each, from an index on, times 128: the lower minor of each pair moves up, then the lower pair,
// then the lower half.
fn group(minors: &[u8], at: usize) -> u64
    requires at_in_bounds { at + 8 ≤ length minors.now }
    requires by_index { (i : ℕ) → get_or minors.now i 0 < 128 }
    ensures { (result ≡ 128 * number 128 (part minors.now at 8)) × (result < 2 ^ 63) }
{
    let bytes = u64::load(minors, at);
    let quarters = bytes + (bytes & 0x00FF_00FF_00FF_00FF);
    let halves = quarters + (quarters & 0x0000_FFFF_0000_FFFF) * 3;
    halves + (halves & 0x0000_0000_FFFF_FFFF) * 15
}

// Writes a block of a major and 64 minors, a byte each, at an index.
pub fn pack(major: u64, minors: &[u8], at: usize, out: &mut [u8])
    requires minors_len { (length minors.now ≡ 64) × (at + 64 ≤ length out.old) }
    requires by_index { (i : ℕ) → get_or minors.now i 0 < 128 }
    ensures { out.new ≡ put out.old at (counter_block major minors.now) }
{
    let mut word = major;
    u64::store(out, at, word);
    for g in 0..8 {
        word = word / 0x100_0000_0000_0000 + 2 * group(minors, 8 * g);
        u64::store(out, at + 7 + 7 * g, word);
    }
}

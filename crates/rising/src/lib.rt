// Four numbers in rising sequence.
#![tactic(auto)]

ghost use Rattle.std.specs.Prelude.{◌≡◌, length};
ghost use Rattle.words.specs.Bytes.{bytes_of};
ghost use Rattle.rising.specs.Rising.{merged, rising};

use words::Word;

// Writes two rising pairs, a b and c d, as one rising sequence.
fn put_merged(out: &mut [u8], a: u64, b: u64, c: u64, d: u64)
    requires { length out.old ≡ 32 }
    ensures { out.new ≡ bytes_of 8 (merged a b c d) }
{
    let low = a.max(c);
    let high = b.min(d);
    u64::store(out, 0, a.min(c));
    u64::store(out, 8, low.min(high));
    u64::store(out, 16, low.max(high));
    u64::store(out, 24, b.max(d));
}

// Writes four numbers in rising sequence: five exchanges, the fewest that do.
pub fn put_rising(out: &mut [u8], a: u64, b: u64, c: u64, d: u64)
    requires { length out.old ≡ 32 }
    ensures { out.new ≡ bytes_of 8 (rising a b c d) }
{
    put_merged(out, a.min(b), a.max(b), c.min(d), c.max(d));
}

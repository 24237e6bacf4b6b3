// The counter block of a page that is turned, and the lines that are.
#![tactic(auto)]

ghost use Rattle.std.specs.Prelude.{◌≡◌, map, suc, ◌^◌, ◌<◌, length};
ghost use Rattle.bits.specs.Bits.{set_bits};
ghost use Rattle.counter.specs.Counter.{counter_block, written_from, turned_minor};

fn turned_minor(minor: u8) -> u8
    ensures { (result ≡ turned_minor minor) × (result < 2) }
{
    minor.min(1)
}

// The number whose set bits are the places of written lines.
pub fn written_mask(minors: &[u8]) -> u64
    requires { length minors.now ≡ 64 }
    ensures { set_bits result ≡ written_from 0 minors.now }
{
    let mut mask = 0;
    for j in (0..64).rev() {
        mask = mask * 2 + u64::from(turned_minor(minors[j]));
    }
    mask
}

fn turn_minors(minors: &[u8], out: &mut [u8])
    requires { (length minors.now ≡ 64) × (length out.old ≡ 64) }
    ensures { out.new ≡ map turned_minor minors.now }
{
    for j in 0..64 {
        out[j] = turned_minor(minors[j]);
    }
}

// Writes the block of the next major and the minors turned.
pub fn turned_block(major: u64, minors: &[u8], block: &mut [u8])
    requires { (length minors.now ≡ 64) × ((length block.old ≡ 64) × (suc major < 2 ^ 64)) }
    ensures { block.new ≡ counter_block (suc major) (map turned_minor minors.now) }
{
    let mut turned = [0u8; 64];
    turn_minors(minors, &mut turned);
    minors::pack(major + 1, &turned, 0, block);
}

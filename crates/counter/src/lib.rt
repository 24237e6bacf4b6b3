// The counter block of a page: its major and its minors read, one minor replaced or brought forward, and all of them a byte each.
#![tactic(auto)]

ghost use Rattle.std.specs.Prelude.{◌≡◌, ◌<◌, length};
ghost use Rattle.counter.specs.Counter.{
  with_minor,
  major as major_of,
  minor as minor_of,
  forward as forward_to,
};

use words::Word;

pub fn major(block: &[u8]) -> u64
    requires { length block.now ≡ 64 }
    ensures { result ≡ major_of block.now }
{
    u64::load(block, 0)
}

// Eight minors take seven bytes. The eight bytes that end with those of minor j's group start one
// byte before them, at 7 + 7 * (j / 8), and have the minor from bit 8 + 7 * (j % 8) on.
pub fn minor(block: &[u8], j: usize) -> u64
    requires { (length block.now ≡ 64) × (j < 64) }
    ensures { result ≡ minor_of block.now j }
{
    let w = u64::load(block, 7 + j / 8 * 7);
    (w >> (8 + j % 8 * 7)) % 128
}

// Writes the block with v for its minor j.
pub fn with_minor(block: &[u8], j: usize, v: u64, out: &mut [u8])
    requires { (length block.now ≡ 64) × ((length out.old ≡ 64) × ((j < 64) × (v < 128))) }
    ensures { out.new ≡ with_minor block.now j v }
{
    let at = 7 + j / 8 * 7;
    let bit = 8 + j % 8 * 7;
    let w = u64::load(block, at);
    let old = (w >> bit) % 128;
    copying::copy(out, 0, block, 0, 64);
    u64::store(out, at, w - (old << bit) + (v << bit));
}

// The minor s brought forward to a phase.
pub fn forward(s: u64, phase: u64) -> u64
    requires { (s < 128) × (phase < 4) }
    ensures { result ≡ forward_to s phase }
{
    s + (phase + (4 - s % 4)) % 4
}

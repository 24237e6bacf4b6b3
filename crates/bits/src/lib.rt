// The set bits of a 64-bit number, lowest first.
#![tactic(auto)]

ghost use Rattle.std.specs.Prelude.{◌≡◌, ◌<◌, length, get_or, drop};
ghost use Rattle.bits.specs.Bits.{set_bits};

// The lowest set bit.
pub fn lowest(mask: u64) -> usize
    requires { 0 < mask }
    ensures { (result ≡ get_or (set_bits mask) 0 0) × (result < 64) }
{
    mask.trailing_zeros() as usize
}

// How many are set.
pub fn remaining(mask: u64) -> usize
    ensures { result ≡ length (set_bits mask) }
{
    mask.count_ones() as usize
}

// The number with its lowest set bit cleared.
pub fn without_lowest(mask: u64) -> u64
    requires { 0 < mask }
    ensures { set_bits result ≡ drop 1 (set_bits mask) }
{
    mask & (mask - 1)
}

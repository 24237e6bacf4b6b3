// The rotation of a word.
#![tactic(auto)]

ghost use Rattle.std.specs.Prelude.{◌≡◌, ℕ, ◌<◌};
ghost use Rattle.rotation.specs.Rotate.{rotl};

// A word that can be rotated.
pub trait Rotate {
    // how many bits it has
    ghost width: { ℕ };

    // its number
    ghost value: { Self → ℕ };

    // The word rotated left by n, which is at least 1 and less than its width.
    fn rotate(self, n: u32) -> Self
        requires { (0 < n) × (n < width) }
        ensures { value result ≡ rotl width n (value self) };
}

impl Rotate for u32 {
    ghost width = { 32 };

    ghost value = { λ x. x };

    fn rotate(self, n: u32) -> u32 {
        (self << n) | (self >> (32 - n))
    }
}

impl Rotate for u64 {
    ghost width = { 64 };

    ghost value = { λ x. x };

    fn rotate(self, n: u32) -> u64 {
        (self << n) | (self >> (64 - n))
    }
}

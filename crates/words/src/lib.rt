// Little-endian words in byte slices.
#![tactic(auto)]

ghost use Rattle.std.specs.Prelude.{◌≡◌, ℕ, ◌+◌, ◌<◌, ◌≤◌, length};
ghost use Rattle.words.specs.Bytes.{from_le, to_le, part, put};

// A word that takes some bytes of a slice, from an index on.
pub trait Word {
    // how many bytes it takes
    ghost width: { ℕ };

    // its number
    ghost value: { Self → ℕ };

    fn load(s: &[u8], at: usize) -> Self
        requires { at + width ≤ length s.now }
        ensures { value result ≡ from_le (part s.now at width) };

    fn store(s: &mut [u8], at: usize, x: Self)
        requires { at + width ≤ length s.old }
        ensures { s.new ≡ put s.old at (to_le width (value x)) };
}

impl Word for u32 {
    ghost width = { 4 };

    ghost value = { λ x. x };

    fn load(s: &[u8], at: usize) -> u32 {
        u32::from(s[at])
            + u32::from(s[at + 1]) * 0x100
            + u32::from(s[at + 2]) * 0x1_0000
            + u32::from(s[at + 3]) * 0x100_0000
    }

    fn store(s: &mut [u8], at: usize, x: u32) {
        s[at] = (x % 256) as u8;
        s[at + 1] = (x / 256 % 256) as u8;
        s[at + 2] = (x / 256 / 256 % 256) as u8;
        s[at + 3] = (x / 256 / 256 / 256 % 256) as u8;
    }
}

impl Word for u64 {
    ghost width = { 8 };

    ghost value = { λ x. x };

    fn load(s: &[u8], at: usize) -> u64 {
        let low = u64::from(u32::load(s, at));
        let high = u64::from(u32::load(s, at + 4));
        low + high * 0x1_0000_0000
    }

    fn store(s: &mut [u8], at: usize, x: u64) {
        u32::store(s, at, (x % 0x1_0000_0000) as u32);
        u32::store(s, at + 4, (x / 0x1_0000_0000) as u32);
    }
}

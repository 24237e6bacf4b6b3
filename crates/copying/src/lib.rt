// Copying bytes from slice to slice, and filling with equal ones.
#![tactic(auto)]

ghost use Rattle.std.specs.Prelude.{◌≡◌, ◌+◌, ◌*◌, ◌≤◌, length, replicate};
ghost use Rattle.words.specs.Bytes.{part, put};

use words::Word;

// Copies 16 bytes of src from an index to dst at an index. Both words are read before one is written, so that the compiler
// moves them as one.
fn copy_pair(dst: &mut [u8], to: usize, src: &[u8], from: usize)
    requires { (to + 16 ≤ length dst.old) × (from + 16 ≤ length src.now) }
    ensures { dst.new ≡ put dst.old to (part src.now from 16) }
{
    let first = u64::load(src, from);
    let second = u64::load(src, from + 8);
    u64::store(dst, to, first);
    u64::store(dst, to + 8, second);
}

// The same n times.
fn copy_pairs(dst: &mut [u8], to: usize, src: &[u8], from: usize, n: usize)
    requires { (to + 16 * n ≤ length dst.old) × (from + 16 * n ≤ length src.now) }
    ensures { dst.new ≡ put dst.old to (part src.now from (16 * n)) }
{
    for i in 0..n {
        copy_pair(dst, to + 16 * i, src, from + 16 * i);
    }
}

// The same, a byte at a time.
fn copy_bytes(dst: &mut [u8], to: usize, src: &[u8], from: usize, n: usize)
    requires { (to + n ≤ length dst.old) × (from + n ≤ length src.now) }
    ensures { dst.new ≡ put dst.old to (part src.now from n) }
{
    for i in 0..n {
        dst[to + i] = src[from + i];
    }
}

// What is left after the pairs, less than 16 bytes: a word, if there is one, then bytes.
fn copy_rest(dst: &mut [u8], to: usize, src: &[u8], from: usize, n: usize)
    requires { (to + n ≤ length dst.old) × (from + n ≤ length src.now) }
    ensures { dst.new ≡ put dst.old to (part src.now from n) }
{
    if n < 8 {
        copy_bytes(dst, to, src, from, n);
        return;
    }
    u64::store(dst, to, u64::load(src, from));
    copy_bytes(dst, to + 8, src, from + 8, n - 8);
}

// Copies n bytes of src from an index to dst at an index.
pub fn copy(dst: &mut [u8], to: usize, src: &[u8], from: usize, n: usize)
    requires { (to + n ≤ length dst.old) × (from + n ≤ length src.now) }
    ensures { dst.new ≡ put dst.old to (part src.now from n) }
{
    let pairs = n / 16 * 16;
    copy_pairs(dst, to, src, from, n / 16);
    copy_rest(dst, to + pairs, src, from + pairs, n - pairs);
}

// Writes a byte n times at an index.
pub fn fill(s: &mut [u8], at: usize, n: usize, byte: u8)
    requires { at + n ≤ length s.old }
    ensures { s.new ≡ put s.old at (replicate n byte) }
{
    s[at..at + n].fill(byte);
}

// Writes n zeros at an index.
pub fn zero(s: &mut [u8], at: usize, n: usize)
    requires { at + n ≤ length s.old }
    ensures { s.new ≡ put s.old at (replicate n 0) }
{
    fill(s, at, n, 0);
}

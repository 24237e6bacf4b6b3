// SipHash-2-4 of messages.
#![tactic(auto)]

ghost use Rattle.std.specs.Prelude.{◌≡◌, ℕ, ◌*◌, ◌≤◌, ◌<◌, List, length, get_or, set};
ghost use Rattle.words.specs.Bytes.{words_of};
ghost use Rattle.siphash.specs.SipHash.{initial, last_word, sip_hash, compress_all};

use siphash::{compress, finalize, start};
use words::Word;

// The state after n words more, of which word i is word(i). Each caller's walk is code of its own.
pub fn compress_each<F: Fn(usize) -> u64>(v: [u64; 4], n: usize, word: F) -> [u64; 4]
    requires { (i : ℕ) → i < n → F.pre word i }
    ensures { (ws : List ℕ) → length ws ≡ n → ((i : ℕ) (m : ℕ) → i < n → F.post word i m → m ≡ get_or ws i 0)
        → result ≡ compress_all v ws }
{
    let mut r = v;
    for i in 0..n {
        let next = compress(r, word(i));
        r = next;
    }
    r
}

// The state of a key's two words after the first n words of a message.
pub fn absorb(k0: u64, k1: u64, s: &[u8], n: usize) -> [u64; 4]
    requires { n * 8 ≤ length s.now }
    ensures { result ≡ compress_all (initial k0 k1) (words_of 8 n s.now) }
{
    compress_each(start(k0, k1), n, |i| u64::load(s, i * 8))
}

// The same with x in place of word j. By a loop of its own: as a closure for `compress_each` it takes more instructions.
pub fn absorb_changed(k0: u64, k1: u64, s: &[u8], n: usize, j: usize, x: u64) -> [u64; 4]
    requires { n * 8 ≤ length s.now }
    ensures { result ≡ compress_all (initial k0 k1) (set (words_of 8 n s.now) j x) }
{
    let mut r = start(k0, k1);
    for i in 0..n {
        let mut w = u64::load(s, 8 * i);
        if i == j {
            w = x;
        }
        let next = compress(r, w);
        r = next;
    }
    r
}

// The bytes after the last whole word, and the length modulo 256.
fn last_word(s: &[u8]) -> u64
    ensures { result ≡ last_word s.now }
{
    let mut sum = 0;
    for i in (s.len() / 8 * 8..s.len()).rev() {
        sum = sum * 256 + u64::from(s[i]);
    }
    sum + (s.len() % 256) as u64 * 0x100_0000_0000_0000
}

// The hash of a message of any length under a key of 16 bytes.
pub fn hash(key: &[u8], message: &[u8]) -> u64
    requires { length key.now ≡ 16 }
    ensures { result ≡ sip_hash key.now message.now }
{
    let v = absorb(
        u64::load(key, 0),
        u64::load(key, 8),
        message,
        message.len() / 8,
    );
    finalize(compress(v, last_word(message)))
}

// The ChaCha20 block function of RFC 8439.
#![tactic(auto)]

ghost use Rattle.std.specs.Prelude.{◌≡◌, ◌++◌, ◌+◌, ◌≤◌, length, get_or};
ghost use Rattle.words.specs.Bytes.{words_of, bytes_of, part, put};
ghost use Rattle.chacha20.specs.ChaCha20.{constants, serialised, block as chacha_block};
ghost use Rattle.chacha20.specs.Rows.{row, flat};

use chacha20::{add_rows, twenty_rounds};
use words::Word;

fn load_row(s: &[u8], at: usize) -> [u32; 4]
    requires { at + 16 ≤ length s.now }
    ensures { result ≡ words_of 4 4 (part s.now at 16) }
{
    [
        u32::load(s, at),
        u32::load(s, at + 4),
        u32::load(s, at + 8),
        u32::load(s, at + 12),
    ]
}

fn store_row(out: &mut [u8], at: usize, r: [u32; 4])
    requires { at + 16 ≤ length out.old }
    ensures { out.new ≡ put out.old at (bytes_of 4 (row (λ j. get_or r j 0))) }
{
    u32::store(out, at, r[0]);
    u32::store(out, at + 4, r[1]);
    u32::store(out, at + 8, r[2]);
    u32::store(out, at + 12, r[3]);
}

// The constants, the words of a key's first 32 bytes, and the last row.
fn start_rows(key: &[u8], last: [u32; 4]) -> [[u32; 4]; 4]
    requires { 32 ≤ length key.now }
    ensures { flat result ≡ constants ++ (words_of 4 8 key.now ++ last) }
{
    [
        load_row(b"expand 32-byte k", 0),
        load_row(key, 0),
        load_row(key, 16),
        last,
    ]
}

// The block as rows of words, of a key, its first 32 bytes, and the last row, the counter and the words of the nonce.
pub fn key_rows(key: &[u8], last: [u32; 4]) -> [[u32; 4]; 4]
    requires { 32 ≤ length key.now }
    ensures { bytes_of 4 (flat result) ≡ serialised (constants ++ (words_of 4 8 key.now ++ last)) }
{
    let s = start_rows(key, last);
    let t = twenty_rounds(s);
    [
        add_rows(t[0], s[0]),
        add_rows(t[1], s[1]),
        add_rows(t[2], s[2]),
        add_rows(t[3], s[3]),
    ]
}

fn row_bytes(s: [[u32; 4]; 4]) -> [u8; 64]
    ensures { result ≡ bytes_of 4 (flat s) }
{
    let mut out = [0u8; 64];
    store_row(&mut out, 0, s[0]);
    store_row(&mut out, 16, s[1]);
    store_row(&mut out, 32, s[2]);
    store_row(&mut out, 48, s[3]);
    out
}

// The block function of the RFC.
pub fn block(key: &[u8], counter: u32, nonce: &[u8]) -> [u8; 64]
    requires { (length key.now ≡ 32) × (length nonce.now ≡ 12) }
    ensures { result ≡ chacha_block key.now counter nonce.now }
{
    let rows = key_rows(
        key,
        [
            counter,
            u32::load(nonce, 0),
            u32::load(nonce, 4),
            u32::load(nonce, 8),
        ],
    );
    row_bytes(rows)
}

// The pad of a line, and encryption by it.
#![tactic(auto)]

ghost use Rattle.std.specs.Prelude.{◌≡◌, ◌+◌, ◌≤◌, length, get_or};
ghost use Rattle.words.specs.Bytes.{to_le, bytes_of, part, put};
ghost use Rattle.chacha20.specs.Rows.{row};
ghost use Rattle.pad.specs.Pad.{xor_bytes, pad as pad_of};

use chacha20_block::key_rows;
use words::Word;

// Writes 4 bytes of a text joined with a word of the pad.
fn join_word(text: &[u8], at: usize, w: u32, out: &mut [u8])
    requires { (at + 4 ≤ length text.now) × (at + 4 ≤ length out.old) }
    ensures { out.new ≡ put out.old at (xor_bytes (part text.now at 4) (to_le 4 w)) }
{
    u32::store(out, at, u32::load(text, at) ^ w);
}

// Writes 16 bytes of a text joined with a row of the pad.
fn join_row(text: &[u8], at: usize, r: [u32; 4], out: &mut [u8])
    requires { (at + 16 ≤ length text.now) × (at + 16 ≤ length out.old) }
    ensures { out.new ≡ put out.old at
        (xor_bytes (part text.now at 16) (bytes_of 4 (row (λ j. get_or r j 0)))) }
{
    join_word(text, at, r[0], out);
    join_word(text, at + 4, r[1], out);
    join_word(text, at + 8, r[2], out);
    join_word(text, at + 12, r[3], out);
}

// Writes the 64 bytes of a text joined with the pad of a line at a counter, under keys of 48 bytes. Done twice it gives the text back.
pub fn apply(keys: &[u8], line: u32, major: u64, minor: u32, text: &[u8], out: &mut [u8])
    requires { (length keys.now ≡ 48) × ((length text.now ≡ 64) × (length out.old ≡ 64)) }
    ensures { out.new ≡ xor_bytes text.now (pad_of keys.now line major minor) }
{
    let s = key_rows(
        keys,
        [
            line,
            minor,
            (major % 0x1_0000_0000) as u32,
            (major / 0x1_0000_0000) as u32,
        ],
    );
    join_row(text, 0, s[0], out);
    join_row(text, 16, s[1], out);
    join_row(text, 32, s[2], out);
    join_row(text, 48, s[3], out);
}

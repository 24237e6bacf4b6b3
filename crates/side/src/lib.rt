// The side bytes of a data cell: made for a counter, and held against a cell, in a module of either family.
#![tactic(auto)]

ghost use Rattle.std.specs.Prelude.{◌≡◌, length};
ghost use Rattle.words.specs.Bytes.{from_le};
ghost use Rattle.side.specs.Side.{side_bytes, side_fits};

use words::Word;

// The side bytes of a content, 64 bytes, as one word.
pub fn word(family: u64, keys: &[u8], content: &[u8], line: u64, major: u64, minor: u64) -> u64
    requires { (length keys.now ≡ 48) × (length content.now ≡ 64) }
    ensures { result ≡ from_le (side_bytes family keys.now content.now line major minor) }
{
    let hash = tag::data_hash(keys, content, line, major, minor);
    if family == 0 {
        return minor % 4 + 256 * (hash % 0x100_0000_0000_0000);
    }
    hash
}

// Whether a cell, 72 bytes, has the side bytes of a counter.
pub fn matches(family: u64, keys: &[u8], cell: &[u8], line: u64, major: u64, minor: u64) -> bool
    requires { (length keys.now ≡ 48) × (length cell.now ≡ 72) }
    ensures { result ≡ side_fits family keys.now cell.now line major minor }
{
    u64::load(cell, 64) == word(family, keys, &cell[0..64], line, major, minor)
}

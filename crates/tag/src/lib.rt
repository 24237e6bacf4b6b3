// The tags of nodes and of data cells.
#![tactic(auto)]

ghost use Rattle.std.specs.Prelude.{◌≡◌, cond, [], ◌∷◌, ◌++◌, ◌*◌, ◌<◌, eqb, length};
ghost use Rattle.words.specs.Bytes.{from_le, to_le, part, put, words_of};
ghost use Rattle.siphash.specs.SipHash.{initial, compress_all, finalize as finalized};
ghost use Rattle.tag.specs.Tag.{node_tag, data_hash};
ghost use Rattle.tag.specs.States.{data_state, hash_from};

use siphash::{compress, finalize, start};
use siphash_message::{absorb, absorb_changed, compress_each};
use words::Word;

// The hash of a content, 64 bytes, and of three words, or of four where the last is not 0, under keys of 48 bytes.
fn digest(keys: &[u8], content: &[u8], a: u64, b: u64, c: u64, d: u64) -> u64
    requires { (length keys.now ≡ 48) × (length content.now ≡ 64) }
    ensures { result ≡ finalized (compress_all
        (initial (from_le (part keys.now 32 8)) (from_le (part keys.now 40 8)))
        (words_of 8 8 content.now ++ (a ∷ b ∷ c ∷ cond (eqb d 0) [] (d ∷ [])))) }
{
    let v = absorb(u64::load(keys, 32), u64::load(keys, 40), content, 8);
    let w = compress(compress(compress(v, a), b), c);
    if d == 0 {
        return finalize(w);
    }
    finalize(compress(w, d))
}

// The tag of a node's content, 64 bytes, under keys of 48 bytes.
pub fn node_tag(keys: &[u8], content: &[u8], level: u64, index: u64) -> u64
    requires { (length keys.now ≡ 48) × (length content.now ≡ 64) }
    ensures { result ≡ node_tag keys.now content.now level index }
{
    digest(keys, content, level, index, 0x5000_0000_0000_0000, 0)
}

// The tag of a node's content with x in place of its word j.
pub fn changed_tag(keys: &[u8], content: &[u8], j: usize, x: u64, level: u64, index: u64) -> u64
    requires { (length keys.now ≡ 48) × ((length content.now ≡ 64) × (j < 8)) }
    ensures { result ≡ node_tag keys.now (put content.now (8 * j) (to_le 8 x)) level index }
{
    let v = absorb_changed(u64::load(keys, 32), u64::load(keys, 40), content, 8, j, x);
    let w = compress(compress(v, level), index);
    finalize(compress(w, 0x5000_0000_0000_0000))
}

// The hash of a data cell's content, 64 bytes, under keys of 48 bytes.
pub fn data_hash(keys: &[u8], content: &[u8], line: u64, major: u64, minor: u64) -> u64
    requires { (length keys.now ≡ 48) × (length content.now ≡ 64) }
    ensures { result ≡ data_hash keys.now content.now line major minor }
{
    digest(keys, content, line, major, minor, 0x5800_0000_0000_0000)
}

// The state of that hash before the minor. It does not go by `absorb`, which so has one caller among the calls, and is compiled into
// `digest`.
pub fn data_state(keys: &[u8], content: &[u8], line: u64, major: u64) -> [u64; 4]
    requires { (length keys.now ≡ 48) × (length content.now ≡ 64) }
    ensures { result ≡ data_state keys.now content.now line major }
{
    let v = start(u64::load(keys, 32), u64::load(keys, 40));
    let w = compress_each(v, 8, |i| u64::load(content, i * 8));
    compress(compress(w, line), major)
}

// The hash from such a state with a minor.
pub fn data_hash_from(state: [u64; 4], minor: u64) -> u64
    ensures { result ≡ hash_from state minor }
{
    finalize(compress(compress(state, minor), 0x5800_0000_0000_0000))
}

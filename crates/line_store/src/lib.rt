// Storing a line whose path is found: the stores of its write, and the path's slots after them.
#![tactic(auto)]

ghost use Rattle.std.specs.Prelude.{◌≡◌, true, cond, suc, ◌<◌, length, eqb};
ghost use Rattle.memory_map.specs.Map.{lines, page_of};
ghost use Rattle.counter.specs.Counter.{lag};
ghost use Rattle.control.specs.Control.{control_length};
ghost use Rattle.cache.specs.Cache.{formed};
ghost use Rattle.node.specs.Sized.{Sized};
ghost use Rattle.calls.specs.Call.{buffers, ended};
ghost use Rattle.call_laws.specs.Walk.{missing as missing_nodes};
ghost use Rattle.line_store.specs.Stored.{stored_line};

use answer::Answer;
use line_batch::LineWrite;

// The flag of a counter block's slot: clean where the block is stored.
fn block_flag(minor: u64) -> u8
    ensures { result ≡ cond (eqb (lag minor) 0) 0 1 }
{
    u8::from(minor % 4 != 0)
}

// Makes the stores of a write at a counter whose path is found, and writes the path's slots: done, or cut with the cache as it was.
pub fn store_line(
    h: usize,
    family: u64,
    keys: &[u8],
    control: &mut [u8],
    array: &mut [u8],
    cache: &mut [u8],
    w: LineWrite,
    text: &[u8],
    block: &[u8],
    allowance: u64,
) -> Answer
    requires keys_len { (length keys.now ≡ 48) × ((length text.now ≡ 64) × ((w.minor < 128) × (length block.now ≡ 64))) }
    requires control_len { (length control.old ≡ control_length) × (Sized h array.old cache.old × ((formed h cache.old ≡ true)
        × ((w.line < lines h) × (w.missing ≡ missing_nodes cache.old (page_of w.line) (suc h))))) }
    ensures { ended result array.new control.new cache.new
        ≡ stored_line h family keys.now w.line text.now w.major w.minor block.now allowance
        (buffers array.old control.old cache.old) }
{
    let p = memory_map::page_of(w.line);
    let tags = renewal::path_tags(h, keys, array, cache, p, block);
    let n = line_batch::gather(h, family, keys, cache, w, text, block, control, allowance);
    let root = tags[h];
    let stores = journal::run(array, control, n, root, allowance);
    if stores < 2 * n as u64 + 3 {
        return Answer::Cut { stores };
    }
    loading::load_missing(h, array, p, w.missing, cache);
    renewal::renew_path(h, p, tags, block, block_flag(w.minor), cache);
    Answer::Done { stores, sum: 0 }
}

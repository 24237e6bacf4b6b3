// Turning a page whose path is found and whose lines are checked: the stores of its batches, and the path's slots after them.
#![tactic(auto)]

ghost use Rattle.std.specs.Prelude.{◌≡◌, suc, length};
ghost use Rattle.counter.specs.Counter.{turned};
ghost use Rattle.control.specs.Control.{depth};
ghost use Rattle.cache.specs.Cache.{current};
ghost use Rattle.std.specs.Prelude.{None};
ghost use Rattle.journal.specs.Journal.{media};
ghost use Rattle.calls.specs.Call.{buffers, ended};
ghost use Rattle.calls.specs.Turn.{turned_root, turn_checked};
ghost use Rattle.call_laws.specs.Walk.{path_cells, with_path};
ghost use Rattle.turn_store.specs.Page.{Page, page_stores, Makes};

use answer::Answer;
use loading::CutShort;
use turn_batch::PageTurn;

// Makes the stores of a turn's batches, a line in each, as far as the allowance goes: a batch makes none where nothing is left of it.
fn run_batches(
    h: usize,
    keys: &[u8],
    control: &mut [u8],
    array: &mut [u8],
    cache: &[u8],
    t: &PageTurn<'_>,
    block: &[u8],
    root: u64,
    allowance: u64,
) -> Result<u64, CutShort>
    requires keys_len { (length keys.now ≡ 48) × Page h array.old control.old cache.now t.now.p t.now.missing t.now.major t.now.minors.now t.now.mask }
    requires block_value { (block.now ≡ turned (current h array.old cache.now 0 t.now.p))
        × (root ≡ turned_root h keys.now (with_path h array.old t.now.p (suc h) cache.now) t.now.p) }
    ensures { Makes allowance (page_stores h keys.now array.old control.old cache.now t.now.p)
        (media array.old control.old) (media array.new control.new) result }
{
    let family = control::family(control);
    let old = control::root(control);
    let mut left = allowance;
    let mut held = turn_batch::put_front(h, array, cache, t, control, left);
    let mut rest = t.mask;
    while 2 <= bits::remaining(rest) {
        let j = bits::lowest(rest);
        let line = 64 * t.p + j;
        let minor = t.minors[j];
        turn_batch::put_line(
            family, keys, array, line, t.major, minor, control, held, left,
        );
        let next = bits::without_lowest(rest);
        left -= journal::run_turn(array, control, held + 1, old, 1, t.p as u64, next, left);
        rest = next;
        held = 0;
    }
    let n = turn_batch::put_last(h, family, keys, array, t, block, rest, control, held, left);
    let made = journal::run_turn(array, control, n, root, 0, 0, 0, left);
    let stores = allowance - left + made;
    if made < 2 * n as u64 + 3 {
        return Err(CutShort { stores });
    }
    Ok(stores)
}

// Makes the stores of a turn, and writes the path's slots: done, or cut with the cache as it was.
pub fn store_page(
    h: usize,
    keys: &[u8],
    control: &mut [u8],
    array: &mut [u8],
    cache: &mut [u8],
    t: &PageTurn<'_>,
    allowance: u64,
) -> Answer
    requires { (length keys.now ≡ 48) × ((h ≡ depth control.old)
        × Page h array.old control.old cache.old t.now.p t.now.missing t.now.major t.now.minors.now t.now.mask) }
    ensures { ended result array.new control.new cache.new
        ≡ turn_checked keys.now t.now.p allowance (buffers array.old control.old cache.old)
        (with_path h array.old t.now.p (suc h) cache.old) (path_cells h cache.old t.now.p (suc h)) None }
{
    let mut block = [0u8; 64];
    turn_block::turned_block(t.major, t.minors, &mut block);
    let tags = renewal::path_tags(h, keys, array, cache, t.p, &block);
    let root = tags[h];
    let made = run_batches(h, keys, control, array, cache, t, &block, root, allowance);
    let stores = match made {
        Ok(stores) => stores,
        Err(cut) => return cut.into(),
    };
    loading::load_missing(h, array, t.p, t.missing, cache);
    renewal::renew_path(h, t.p, tags, &block, 0, cache);
    Answer::Done { stores, sum: 0 }
}

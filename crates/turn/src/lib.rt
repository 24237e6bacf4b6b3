// Turning a page.
#![tactic(auto)]

ghost use Rattle.std.specs.Prelude.{◌≡◌, true, suc, ◌<◌, length};
ghost use Rattle.memory_map.specs.Map.{pages};
ghost use Rattle.control.specs.Control.{control_length, depth as depth_of};
ghost use Rattle.cache.specs.Cache.{formed};
ghost use Rattle.node.specs.Sized.{Sized};
ghost use Rattle.calls.specs.Call.{buffers, ended};
ghost use Rattle.calls.specs.Turn.{page_path, turn_loaded, turn_path, turn as turning};
ghost use Rattle.call_laws.specs.Walk.{missing as missing_nodes, path_cells, with_path};

use answer::{Answer, Refusal};
use turn_batch::PageTurn;

// Turns a page of which so many nodes are missing.
fn turn_loaded(
    h: usize,
    keys: &[u8],
    control: &mut [u8],
    array: &mut [u8],
    cache: &mut [u8],
    p: usize,
    missing: u64,
    allowance: u64,
) -> Answer
    requires keys_len { (length keys.now ≡ 48) × ((length control.old ≡ control_length) × ((h ≡ depth_of control.old)
        × (Sized h array.old cache.old × ((formed h cache.old ≡ true) × (p < pages h))))) }
    requires missing_value { missing ≡ missing_nodes cache.old p (suc h) }
    ensures { ended result array.new control.new cache.new
        ≡ turn_loaded keys.now p allowance (buffers array.old control.old cache.old)
        (with_path h array.old p (suc h) cache.old) (path_cells h cache.old p (suc h)) }
{
    let block = node::current(h, array, cache, 0, p);
    let major = counter::major(block);
    if major == 0xffff_ffff_ffff_ffff {
        return Refusal::WornPage.into();
    }
    let mut minors = [0u8; 64];
    minors::unpack(block, &mut minors);
    let mask = turn_check::places(control, p, &minors);
    let family = control::family(control);
    let bad = turn_check::bad_line(family, keys, array, p, major, &minors, mask);
    if let Some(line) = bad {
        return Refusal::BadData.at(line as u64, 0);
    }
    let t = PageTurn {
        p,
        missing,
        major,
        minors: &minors,
        mask,
    };
    turn_store::store_page(h, keys, control, array, cache, &t, allowance)
}

// Turns a page of a module that is accepted.
fn turn_page(
    h: usize,
    keys: &[u8],
    control: &mut [u8],
    array: &mut [u8],
    cache: &mut [u8],
    p: usize,
    allowance: u64,
) -> Answer
    requires { (length keys.now ≡ 48) × ((length control.old ≡ control_length) × ((h ≡ depth_of control.old)
        × (Sized h array.old cache.old × ((formed h cache.old ≡ true) × (p < pages h))))) }
    ensures { ended result array.new control.new cache.new
        ≡ turn_path keys.now p allowance (buffers array.old control.old cache.old)
        (page_path keys.now p (buffers array.old control.old cache.old)) }
{
    match path::walk(h, keys, array, cache, control::root(control), p) {
        Ok(missing) => turn_loaded(h, keys, control, array, cache, p, missing, allowance),
        Err(node) => node.into(),
    }
}

// Turns a page: each of its written lines is encrypted afresh.
pub fn turn(
    keys: &[u8],
    control: &mut [u8],
    array: &mut [u8],
    cache: &mut [u8],
    page: u64,
    allowance: u64,
) -> Answer
    ensures { ended result array.new control.new cache.new
        ≡ turning keys.now page allowance (buffers array.old control.old cache.old) }
{
    if let Err(refusal) = access::turning(keys, control, array, cache, page) {
        return refusal.into();
    }
    turn_page(
        control::depth(control),
        keys,
        control,
        array,
        cache,
        page as usize,
        allowance,
    )
}

// Loading a path: its batch, its stores, its slots.
#![tactic(auto)]

ghost use Rattle.std.specs.Prelude.{◌≡◌, true, false, suc, ◌+◌, ◌<◌, ◌≤◌, length};
ghost use Rattle.memory_map.specs.Map.{pages, InMap};
ghost use Rattle.memory_map.specs.Map.Item.{node};
ghost use Rattle.slot_map.specs.Slots.{cache_length};
ghost use Rattle.answer.specs.declared.Answer.TheVariants.{Done, Cut};
ghost use Rattle.control.specs.Control.{control_length, root as root_of};
ghost use Rattle.cache.specs.Cache.{formed, holds};
ghost use Rattle.batch.specs.Batch.{staged_from};
ghost use Rattle.node.specs.Sized.{Sized};
ghost use Rattle.calls.specs.Call.{buffers, ended, storing};
ghost use Rattle.call_laws.specs.Walk.{missing as missing_nodes, node_cells, path_cells, path_stores, with_path};
ghost use Rattle.loading.specs.Settled.{settled};

use answer::Answer;
use memory_map::on_path;

// A call is cut after so many stores.
#[derive(Clone, Copy, Debug, PartialEq, Eq)]
pub struct CutShort {
    pub stores: u64,
}

impl From<CutShort> for Answer {
    ghost from_gives = { λ c a. a ≡ Cut c.stores };

    fn from(cut: CutShort) -> Answer {
        Answer::Cut { stores: cut.stores }
    }
}

// Stages the cells of a missing node behind n others, and tells how many cells there then are.
fn gather_node(
    h: usize,
    cache: &[u8],
    l: usize,
    i: usize,
    control: &mut [u8],
    n: usize,
    allowance: u64,
) -> usize
    requires le_h { (1 ≤ h) × ((h ≤ 3) × ((length cache.now ≡ cache_length h) × ((formed h cache.now ≡ true) × InMap h (node l i)))) }
    requires i_value { (holds cache.now l i ≡ false)
        × ((length control.old ≡ control_length) × (n + length (node_cells h cache.now l i) ≤ 8)) }
    ensures control_after { control.new ≡ staged_from allowance n (node_cells h cache.now l i) control.old }
    ensures value { result ≡ n + length (node_cells h cache.now l i) }
{
    let s = slot_map::slot_of(l, i);
    let shadow = memory_map::shadow_cell(h, s);
    if cache::dirty(cache, s) != 1 {
        batch::put_shadow(control, n, allowance, shadow, i as u64 + 1);
        return n + 1;
    }
    let former = cache::owner(cache, s) as usize - 1;
    let content = node::in_slot(cache, s);
    batch::put_cell(
        control,
        n,
        allowance,
        memory_map::node_cell(h, l, former),
        content,
        0,
    );
    batch::put_shadow(control, n + 1, allowance, shadow, i as u64 + 1);
    n + 2
}

// Stages the batch of a path: per missing node its slot's dirty former owner, then the shadow cell.
pub fn gather(h: usize, cache: &[u8], p: usize, control: &mut [u8], allowance: u64) -> usize
    requires le_h { (1 ≤ h) × ((h ≤ 3) × ((length cache.now ≡ cache_length h) × ((formed h cache.now ≡ true) × (p < pages h)))) }
    requires control_len { (length control.old ≡ control_length) × (length (path_cells h cache.now p (suc h)) ≤ 8) }
    ensures control_after { control.new ≡ staged_from allowance 0 (path_cells h cache.now p (suc h)) control.old }
    ensures value { result ≡ length (path_cells h cache.now p (suc h)) }
{
    let mut k = 0;
    for n in (0..h + 1).rev() {
        let i = on_path(p, n);
        if !node::holds(cache, n, i) {
            k = gather_node(h, cache, n, i, control, k, allowance);
        }
    }
    k
}

// Loads the missing nodes of a path into their slots.
pub fn load(h: usize, array: &[u8], p: usize, cache: &mut [u8])
    requires { Sized h array.now cache.old × (p < pages h) }
    ensures { cache.new ≡ with_path h array.now p (suc h) cache.old }
{
    for n in (0..h + 1).rev() {
        let i = on_path(p, n);
        if !node::holds(cache, n, i) {
            let content = node::in_cell(array, memory_map::node_cell(h, n, i));
            node::put_slot(cache, slot_map::slot_of(n, i), i as u64 + 1, 0, content);
        }
    }
}

// Loads the missing nodes of a path, if there are any.
pub fn load_missing(h: usize, array: &[u8], p: usize, missing: u64, cache: &mut [u8])
    requires { Sized h array.now cache.old × ((p < pages h) × (missing ≡ missing_nodes cache.old p (suc h))) }
    ensures { cache.new ≡ with_path h array.now p (suc h) cache.old }
{
    if missing < 1 {
        return;
    }
    load(h, array, p, cache);
}

// Loads the missing nodes of a path under an allowance: so many stores, or cut with the cache as it was.
pub fn settle(
    h: usize,
    control: &mut [u8],
    array: &mut [u8],
    cache: &mut [u8],
    p: usize,
    missing: u64,
    allowance: u64,
) -> Result<u64, CutShort>
    requires { (length control.old ≡ control_length) × (Sized h array.old cache.old
        × ((formed h cache.old ≡ true) × ((p < pages h) × (missing ≡ missing_nodes cache.old p (suc h))))) }
    ensures { ended (settled result) array.new control.new cache.new
        ≡ storing allowance (buffers array.old control.old cache.old)
        (path_stores h cache.old p (root_of control.old))
        (Done (length (path_stores h cache.old p (root_of control.old))) 0)
        (with_path h array.old p (suc h) cache.old) }
{
    if missing == 0 {
        return Ok(0);
    }
    let root = control::root(control);
    let n = gather(h, cache, p, control, allowance);
    let stores = journal::run(array, control, n, root, allowance);
    if stores < 2 * n as u64 + 3 {
        return Err(CutShort { stores });
    }
    load(h, array, p, cache);
    Ok(stores)
}

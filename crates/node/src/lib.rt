// Counter blocks and nodes where they are: in a slot of the cache or in their cell of the array.
#![tactic(auto)]

ghost use Rattle.std.specs.Prelude.{◌≡◌, ◌+◌, ◌*◌, ◌^◌, ◌<◌, ◌≤◌, length};
ghost use Rattle.memory_map.specs.Map.Item.{node};
ghost use Rattle.memory_map.specs.Map.{InMap};
ghost use Rattle.slot_map.specs.Slots.{slot_of};
ghost use Rattle.cache.specs.Cache.{
  content,
  cell_bytes,
  cell_content,
  with_slot,
  holds as holds_node,
  current as current_node,
};
ghost use Rattle.node.specs.Sized.{Sized};

use words::Word;

// The content of a slot.
pub fn in_slot(cache: &[u8], s: usize) -> &[u8]
    requires { 73 * s + 73 ≤ length cache.now }
    ensures { result.now ≡ content cache.now s }
{
    let at = 73 * s + 9;
    &cache[at..at + 64]
}

// All of a cell.
pub fn cell(array: &[u8], n: usize) -> &[u8]
    requires { 72 * n + 72 ≤ length array.now }
    ensures { result.now ≡ cell_bytes array.now n }
{
    let start = 72 * n;
    &array[start..start + 72]
}

// The content of a cell.
pub fn in_cell(array: &[u8], n: usize) -> &[u8]
    requires { 72 * n + 72 ≤ length array.now }
    ensures { result.now ≡ cell_content array.now n }
{
    &cell(array, n)[..64]
}

// Whether the cache has node i of level l.
pub fn holds(cache: &[u8], l: usize, i: usize) -> bool
    requires { (l ≤ 3) × ((i + 1 < 2 ^ 64) × (73 * slot_of l i + 73 ≤ length cache.now)) }
    ensures { result ≡ holds_node cache.now l i }
{
    cache::owner(cache, slot_map::slot_of(l, i)) == i as u64 + 1
}

// The content of node i of level l: the cache's where a slot holds it, else the array's.
pub fn current<'a>(h: usize, array: &'a [u8], cache: &'a [u8], l: usize, i: usize) -> &'a [u8]
    requires { Sized h array.now cache.now × InMap h (node l i) }
    ensures { result.now ≡ current_node h array.now cache.now l i }
{
    if holds(cache, l, i) {
        return in_slot(cache, slot_map::slot_of(l, i));
    }
    in_cell(array, memory_map::node_cell(h, l, i))
}

// Writes owner, dirty flag and content of a slot.
pub fn put_slot(cache: &mut [u8], s: usize, owner: u64, dirty: u8, content: &[u8])
    requires { (73 * s + 73 ≤ length cache.old) × (length content.now ≡ 64) }
    ensures { cache.new ≡ with_slot cache.old s owner dirty content.now }
{
    let at = 73 * s;
    u64::store(cache, at, owner);
    cache[at + 8] = dirty;
    copying::copy(cache, at + 9, content, 0, 64);
}

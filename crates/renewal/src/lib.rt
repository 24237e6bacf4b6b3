// Renewing a path: its tags, its slots.
#![tactic(auto)]

ghost use Rattle.std.specs.Prelude.{◌≡◌, ℕ, suc, ◌+◌, ◌*◌, ◌<◌, ◌≤◌, length, get_or};
ghost use Rattle.words.specs.Bytes.{to_le, put};
ghost use Rattle.memory_map.specs.Map.{pages, on_path};
ghost use Rattle.slot_map.specs.Slots.{cache_length, slot_of};
ghost use Rattle.cache.specs.Cache.{owner, content, with_slot};
ghost use Rattle.node.specs.Sized.{Sized};
ghost use Rattle.renewal.specs.Renewed.{renewed_tag, renewed_by};

use memory_map::{child_place, on_path};
use words::Word;

// The tags of the path of page p, whose counter block is now the given one: that of level l at l.
pub fn path_tags<'a>(
    h: usize,
    keys: &[u8],
    array: &'a [u8],
    cache: &'a [u8],
    p: usize,
    block: &[u8],
) -> [u64; 4]
    requires { (length keys.now ≡ 48) × (Sized h array.now cache.now × ((p < pages h) × (length block.now ≡ 64))) }
    ensures { (l : ℕ) → l ≤ h → get_or result l 0
        ≡ renewed_tag h keys.now array.now cache.now p block.now l }
{
    let mut tags = [0u64; 4];
    let mut tag = tag::node_tag(keys, block, 0, p as u64);
    tags[0] = tag;
    for l in 0..h {
        let child = child_place(p, l);
        let i = on_path(p, l + 1);
        let parent = node::current(h, array, cache, l + 1, i);
        tag = tag::changed_tag(keys, parent, child, tag, (l + 1) as u64, i as u64);
        tags[l + 1] = tag;
    }
    tags
}

// Marks a slot dirty, with a tag for word j of its content.
fn renew_slot(cache: &mut [u8], s: usize, j: usize, tag: u64)
    requires { (73 * s + 73 ≤ length cache.old) × (j < 8) }
    ensures { cache.new ≡ with_slot cache.old s (owner cache.old s) 1
        (put (content cache.old s) (8 * j) (to_le 8 tag)) }
{
    cache[73 * s + 8] = 1;
    u64::store(cache, 73 * s + 9 + 8 * j, tag);
}

// Renews the path of page p in a cache that has it: the block, with its flag, and above it each node with its child's tag.
pub fn renew_path(h: usize, p: usize, tags: [u64; 4], block: &[u8], flag: u8, cache: &mut [u8])
    requires le_h { (1 ≤ h) × ((h ≤ 3) × ((length cache.old ≡ cache_length h) × ((p < pages h) × (length block.now ≡ 64)))) }
    requires by_index { (l : ℕ) → l ≤ h → owner cache.old (slot_of l (on_path p l)) ≡ suc (on_path p l) }
    ensures { cache.new ≡ renewed_by cache.old p block.now flag tags h }
{
    node::put_slot(cache, slot_map::slot_of(0, p), p as u64 + 1, flag, block);
    for l in 0..h {
        let s = slot_map::slot_of(l + 1, on_path(p, l + 1));
        renew_slot(cache, s, child_place(p, l), tags[l]);
    }
}

// The nodes above the counter blocks rebuilt from their children, and the tag of the top.
#![tactic(auto)]

ghost use Rattle.std.specs.Prelude.{◌≡◌, suc, ◌+◌, ◌<◌, ◌≤◌, length, take, drop};
ghost use Rattle.memory_map.specs.Map.Item.{node};
ghost use Rattle.memory_map.specs.Map.{InMap, slots as slots_of};
ghost use Rattle.slot_map.specs.Slots.{level_of};
ghost use Rattle.tag.specs.Tag.{node_tag};
ghost use Rattle.cache.specs.Cache.{current};
ghost use Rattle.node.specs.Sized.{Sized};
ghost use Rattle.calls.specs.Path.{child_tags};
ghost use Rattle.calls.specs.Recovery.{rebuild_node, rebuild_nodes};
ghost use Rattle.forwarding.specs.Rebuild.{Placed};

use words::Word;

// Writes the tags of the eight children of node i of level l + 1, from where they are.
fn child_tags<'a>(
    h: usize,
    keys: &[u8],
    array: &'a [u8],
    image: &'a [u8],
    l: usize,
    i: usize,
    out: &mut [u8],
)
    requires { (length keys.now ≡ 48) × (Sized h array.now image.now
        × (InMap h (node (l + 1) i) × (length out.old ≡ 64))) }
    ensures { out.new
        ≡ child_tags keys.now l (current h array.now image.now l) i }
{
    for k in 0..8 {
        let child = 8 * i + k;
        let content = node::current(h, array, image, l, child);
        let tag = tag::node_tag(keys, content, l as u64, child as u64);
        u64::store(out, 8 * k, tag);
    }
}

// Writes slot s with node i, from its children: it is dirty.
fn put_node(h: usize, keys: &[u8], array: &[u8], s: usize, i: usize, image: &mut [u8])
    requires { (length keys.now ≡ 48) × (Sized h array.now image.old
        × ((4 ≤ s) × ((s < slots_of h) × InMap h (node (level_of s) i)))) }
    ensures { image.new
        ≡ rebuild_node h keys.now array.now image.old s (suc i) }
{
    let l = slot_map::level_of(s) - 1;
    let mut tags = [0u8; 64];
    child_tags(h, keys, array, image, l, i, &mut tags);
    node::put_slot(image, s, i as u64 + 1, 1, &tags);
}

// Fills the node slots that have an owner, by rising level.
pub fn rebuild_nodes(h: usize, keys: &[u8], array: &[u8], owners: [u64; 10], image: &mut [u8])
    requires { (length keys.now ≡ 48) × (Sized h array.now image.old × Placed h owners) }
    ensures { image.new
        ≡ rebuild_nodes h keys.now array.now 4 (drop 4 (take (slots_of h) owners)) image.old }
{
    for s in 4..memory_map::slots(h) {
        let owner = owners[s] as usize;
        if owner != 0 {
            put_node(h, keys, array, s, owner - 1, image);
        }
    }
}

// The tag of the top, rebuilt or in the array.
pub fn top_tag<'a>(h: usize, keys: &[u8], array: &'a [u8], image: &'a [u8]) -> u64
    requires { (length keys.now ≡ 48) × Sized h array.now image.now }
    ensures { result ≡ node_tag keys.now (current h array.now image.now h 0) h 0 }
{
    tag::node_tag(keys, node::current(h, array, image, h, 0), h as u64, 0)
}

// The tree of an empty module: the nodes above the counter blocks.
#![tactic(auto)]

ghost use Rattle.std.specs.Prelude.{◌≡◌, ◌+◌, ◌*◌, ◌≤◌, replicate};
ghost use Rattle.words.specs.Bytes.{put};
ghost use Rattle.memory_map.specs.Map.Item.{node};
ghost use Rattle.memory_map.specs.Map.{InMap, cell_of, level_start, array_length};
ghost use Rattle.cache.specs.Cache.{cell_content};
ghost use Rattle.calls.specs.Path.{child_tags};
ghost use Rattle.calls.specs.Format.{fresh_array};
ghost use Rattle.fresh_tree.specs.Front.{Sized, fresh_front};

use words::Word;

// Writes node i of level l + 1: the tags of its children as they lie in the array.
fn put_node(h: usize, keys: &[u8], l: usize, i: usize, array: &mut [u8])
    requires { Sized h keys.now array.old × InMap h (node (l + 1) i) }
    ensures { array.new ≡ put array.old (72 * cell_of h (node (l + 1) i))
        (child_tags keys.now l (λ j. cell_content array.old (cell_of h (node l j))) i) }
{
    let at = 72 * memory_map::node_cell(h, l + 1, i);
    for k in 0..8 {
        let child = 8 * i + k;
        let content = node::in_cell(array, memory_map::node_cell(h, l, child));
        let tag = tag::node_tag(keys, content, l as u64, child as u64);
        u64::store(array, at + 8 * k, tag);
    }
}

// Writes level l + 1.
fn put_level(h: usize, keys: &[u8], l: usize, array: &mut [u8])
    requires sized { Sized h keys.now array.old × (l + 1 ≤ h) }
    requires array_value { array.old ≡ fresh_front keys.now h (level_start h (l + 1)) }
    ensures { array.new ≡ fresh_front keys.now h (level_start h (l + 2)) }
{
    for i in 0..memory_map::nodes(h, l + 1) {
        put_node(h, keys, l, i, array);
    }
}

// Writes the levels above the counter blocks.
pub fn put_tree(h: usize, keys: &[u8], array: &mut [u8])
    requires { Sized h keys.now array.old × (array.old ≡ replicate (array_length h) 0) }
    ensures { array.new ≡ fresh_array keys.now h }
{
    for l in 0..h {
        put_level(h, keys, l, array);
    }
}

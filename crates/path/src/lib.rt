// The path of a page from the top to its counter block, found without touching the cache.
#![tactic(auto)]

ghost use Rattle.std.specs.Prelude.{◌≡◌, suc, ◌<◌, ◌≤◌, length, eqb};
ghost use Rattle.memory_map.specs.Map.{pages, on_path, cell_of, lines as lines_of};
ghost use Rattle.memory_map.specs.Map.Item.{node};
ghost use Rattle.tag.specs.Tag.{node_tag};
ghost use Rattle.control.specs.Control.{control_length};
ghost use Rattle.cache.specs.Cache.{cell_content};
ghost use Rattle.node.specs.Sized.{Sized};
ghost use Rattle.calls.specs.Path.{load_path};
ghost use Rattle.call_laws.specs.Walk.{missing as missing_nodes, expected_tag};
ghost use Rattle.path.specs.Told.{told, refusal_at, Finds};

use answer::{Answer, Refusal};
use memory_map::on_path;
use words::Word;

// The first node of a path, from the top, that the cache lacks and whose tag differs.
#[derive(Clone, Copy, Debug, PartialEq, Eq)]
pub struct Differs {
    pub level: u64,
    pub index: u64,
}

impl From<Differs> for Answer {
    ghost from_gives = { λ d a. a ≡ refusal_at d };

    fn from(node: Differs) -> Answer {
        Refusal::BadNode.at(node.level, node.index)
    }
}

// The tag that the node of level l on the path must carry.
fn expected<'a>(h: usize, array: &'a [u8], cache: &'a [u8], root: u64, p: usize, l: usize) -> u64
    requires { Sized h array.now cache.now × ((p < pages h) × (l ≤ h)) }
    ensures { result ≡ expected_tag h array.now cache.now root p l }
{
    if l == h {
        return root;
    }
    let parent = node::current(h, array, cache, l + 1, on_path(p, l + 1));
    u64::load(parent, 8 * memory_map::child_place(p, l))
}

// Whether the array's node of level l on the path carries it.
fn genuine<'a>(
    h: usize,
    keys: &[u8],
    array: &'a [u8],
    cache: &'a [u8],
    root: u64,
    p: usize,
    l: usize,
) -> bool
    requires { (length keys.now ≡ 48) × (Sized h array.now cache.now × ((p < pages h) × (l ≤ h))) }
    ensures { result ≡ eqb (node_tag keys.now (cell_content array.now (cell_of h (node l (on_path p l)))) l
        (on_path p l))
        (expected_tag h array.now cache.now root p l) }
{
    let i = on_path(p, l);
    let content = node::in_cell(array, memory_map::node_cell(h, l, i));
    tag::node_tag(keys, content, l as u64, i as u64) == expected(h, array, cache, root, p, l)
}

// Walks the path of page p, top first, checks each node that the cache lacks, and tells how many those are.
pub fn walk<'a>(
    h: usize,
    keys: &[u8],
    array: &'a [u8],
    cache: &'a [u8],
    root: u64,
    p: usize,
) -> Result<u64, Differs>
    requires { (length keys.now ≡ 48) × (Sized h array.now cache.now × (p < pages h)) }
    ensures { result ≡ told (missing_nodes cache.now p (suc h))
        (load_path h keys.now array.now root p cache.now) }
{
    let mut missing = 0;
    for n in (0..h + 1).rev() {
        let i = on_path(p, n);
        if !node::holds(cache, n, i) {
            if !genuine(h, keys, array, cache, root, p, n) {
                return Err(Differs {
                    level: n as u64,
                    index: i as u64,
                });
            }
            missing += 1;
        }
    }
    Ok(missing)
}

// The path of a line, as a walk finds it, and the line's counter in the block of its page, where that is.
#[derive(Clone, Copy)]
pub struct Line {
    pub path: Result<u64, Differs>,
    pub major: u64,
    pub minor: u64,
}

// Walks the path of a line, and reads its counter.
pub fn find_line<'a>(
    h: usize,
    keys: &[u8],
    control: &[u8],
    array: &'a [u8],
    cache: &'a [u8],
    line: usize,
) -> Line
    requires { (length keys.now ≡ 48) × ((length control.now ≡ control_length) × (Sized h array.now cache.now
        × (line < lines_of h))) }
    ensures { Finds h keys.now array.now control.now cache.now line result }
{
    let p = memory_map::page_of(line);
    let path = walk(h, keys, array, cache, control::root(control), p);
    let block = node::current(h, array, cache, 0, p);
    Line {
        path,
        major: counter::major(block),
        minor: counter::minor(block, memory_map::place_of(line)),
    }
}

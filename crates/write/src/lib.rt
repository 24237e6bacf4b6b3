// Writing a line.
#![tactic(auto)]

ghost use Rattle.std.specs.Prelude.{◌≡◌, true, suc, ◌<◌, length};
ghost use Rattle.memory_map.specs.Map.{lines, page_of, place_of};
ghost use Rattle.counter.specs.Counter.{with_minor};
ghost use Rattle.control.specs.Control.{control_length, family as family_of, depth as depth_of};
ghost use Rattle.cache.specs.Cache.{formed, current};
ghost use Rattle.node.specs.Sized.{Sized};
ghost use Rattle.calls.specs.Call.{buffers, ended, path_of};
ghost use Rattle.calls.specs.Write.{write_path, write as writing};
ghost use Rattle.call_laws.specs.Walk.{missing as missing_nodes};
ghost use Rattle.line_store.specs.Stored.{stored_line};

use answer::{Answer, Refusal};
use line_batch::LineWrite;

// Writes a text at a counter that is the line's next.
fn raise(
    h: usize,
    keys: &[u8],
    control: &mut [u8],
    array: &mut [u8],
    cache: &mut [u8],
    w: LineWrite,
    text: &[u8],
    allowance: u64,
) -> Answer
    requires keys_len { (length keys.now ≡ 48) × ((length text.now ≡ 64) × (w.minor < 128)) }
    requires control_len { (length control.old ≡ control_length) × (Sized h array.old cache.old × ((formed h cache.old ≡ true)
        × ((w.line < lines h) × (w.missing ≡ missing_nodes cache.old (page_of w.line) (suc h))))) }
    ensures { ended result array.new control.new cache.new
        ≡ stored_line h (family_of control.old) keys.now w.line text.now w.major w.minor
        (with_minor (current h array.old cache.old 0 (page_of w.line)) (place_of w.line) w.minor) allowance
        (buffers array.old control.old cache.old) }
{
    let family = control::family(control);
    let mut block = [0u8; 64];
    let old = node::current(h, array, cache, 0, memory_map::page_of(w.line));
    counter::with_minor(old, memory_map::place_of(w.line), w.minor, &mut block);
    line_store::store_line(
        h, family, keys, control, array, cache, w, text, &block, allowance,
    )
}

// Writes a line of a module that is accepted.
fn write_line(
    h: usize,
    keys: &[u8],
    control: &mut [u8],
    array: &mut [u8],
    cache: &mut [u8],
    line: usize,
    text: &[u8],
    allowance: u64,
) -> Answer
    requires { (length keys.now ≡ 48) × ((length control.old ≡ control_length) × ((h ≡ depth_of control.old)
        × (Sized h array.old cache.old × ((formed h cache.old ≡ true) × ((line < lines h) × (length text.now ≡ 64)))))) }
    ensures { ended result array.new control.new cache.new
        ≡ write_path keys.now line text.now allowance
        (buffers array.old control.old cache.old)
        (path_of keys.now line (buffers array.old control.old cache.old)) }
{
    let found = path::find_line(h, keys, control, array, cache, line);
    let missing = match found.path {
        Ok(missing) => missing,
        Err(node) => return node.into(),
    };
    if found.minor == 127 {
        return Refusal::Worn.into();
    }
    let w = LineWrite {
        line,
        major: found.major,
        minor: found.minor + 1,
        missing,
    };
    raise(h, keys, control, array, cache, w, text, allowance)
}

// Writes a text of 64 bytes to a line.
pub fn write(
    keys: &[u8],
    control: &mut [u8],
    array: &mut [u8],
    cache: &mut [u8],
    line: u64,
    text: &[u8],
    allowance: u64,
) -> Answer
    ensures { ended result array.new control.new cache.new
        ≡ writing keys.now line text.now allowance
        (buffers array.old control.old cache.old) }
{
    if let Err(refusal) = access::access(keys, control, array, cache, line, text) {
        return refusal.into();
    }
    write_line(
        control::depth(control),
        keys,
        control,
        array,
        cache,
        line as usize,
        text,
        allowance,
    )
}

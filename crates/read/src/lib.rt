// Reading a line.
#![tactic(auto)]

ghost use Rattle.std.specs.Prelude.{◌≡◌, true, ◌<◌, length};
ghost use Rattle.memory_map.specs.Map.{lines};
ghost use Rattle.control.specs.Control.{control_length, depth as depth_of};
ghost use Rattle.cache.specs.Cache.{formed};
ghost use Rattle.node.specs.Sized.{Sized};
ghost use Rattle.calls.specs.Call.{buffers, path_of};
ghost use Rattle.calls.specs.Read.{ended_read, read_path, read as reading};

use answer::{Answer, Refusal};

// Reads a line of a module that is accepted.
fn read_line(
    h: usize,
    keys: &[u8],
    control: &mut [u8],
    array: &mut [u8],
    cache: &mut [u8],
    line: usize,
    out: &mut [u8],
    allowance: u64,
) -> Answer
    requires { (length keys.now ≡ 48) × ((length control.old ≡ control_length) × ((h ≡ depth_of control.old)
        × (Sized h array.old cache.old × ((formed h cache.old ≡ true) × ((line < lines h) × (length out.old ≡ 64)))))) }
    ensures { ended_read result array.new control.new cache.new out.new
        ≡ read_path keys.now line allowance (buffers array.old control.old cache.old)
        out.old (path_of keys.now line (buffers array.old control.old cache.old)) }
{
    let found = path::find_line(h, keys, control, array, cache, line);
    let missing = match found.path {
        Ok(missing) => missing,
        Err(node) => return node.into(),
    };
    if found.minor != 0 {
        let family = control::family(control);
        if !line_text::side_ok(family, keys, array, line, found.major, found.minor) {
            return Refusal::BadData.at(line as u64, 0);
        }
    }
    let p = memory_map::page_of(line);
    let stores = match loading::settle(h, control, array, cache, p, missing, allowance) {
        Ok(stores) => stores,
        Err(cut) => return cut.into(),
    };
    line_text::give(keys, array, line, found.major, found.minor, stores, out)
}

// Reads a line into out: done and its text, or blank.
pub fn read(
    keys: &[u8],
    control: &mut [u8],
    array: &mut [u8],
    cache: &mut [u8],
    line: u64,
    out: &mut [u8],
    allowance: u64,
) -> Answer
    ensures { ended_read result array.new control.new cache.new out.new
        ≡ reading keys.now line allowance out.old
        (buffers array.old control.old cache.old) }
{
    if let Err(refusal) = access::access(keys, control, array, cache, line, out) {
        return refusal.into();
    }
    read_line(
        control::depth(control),
        keys,
        control,
        array,
        cache,
        line as usize,
        out,
        allowance,
    )
}

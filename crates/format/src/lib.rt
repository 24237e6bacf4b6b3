// Format, as a call.
#![tactic(auto)]

ghost use Rattle.std.specs.Prelude.{◌≡◌, ◌≤◌, length};
ghost use Rattle.answer.specs.Refusal.{refusal_of};
ghost use Rattle.control.specs.Control.{control_length, mark_of, fresh_control};
ghost use Rattle.calls.specs.Call.{buffers, ended};
ghost use Rattle.calls.specs.Format.{format_refusal, format as format_of};

use answer::{Answer, Refusal};
use words::Word;

// The call's inputs accepted, or its refusal: 1 2 3 4 5.
fn accepted(
    depth: u64,
    family: u64,
    keys: &[u8],
    control: &[u8],
    array: &[u8],
    cache: &[u8],
) -> Result<(), Refusal>
    ensures { refusal_of result ≡ format_refusal keys.now depth family
        (buffers array.now control.now cache.now) }
{
    if depth < 1 {
        return Err(Refusal::BadDepth);
    }
    if 3 < depth {
        return Err(Refusal::BadDepth);
    }
    if 1 < family {
        return Err(Refusal::BadDepth);
    }
    if keys.len() != 48 {
        return Err(Refusal::BadKeysLength);
    }
    if control.len() != control::LENGTH {
        return Err(Refusal::BadControlLength);
    }
    let h = depth as usize;
    if array.len() != memory_map::array_length(h) {
        return Err(Refusal::BadArrayLength);
    }
    if cache.len() != slot_map::cache_length(h) {
        return Err(Refusal::BadCacheLength);
    }
    Ok(())
}

// The mark of a family.
fn mark_of(family: u64) -> u32
    ensures { result ≡ mark_of family }
{
    if family == 0 {
        return u32::load(b"PIGK", 0);
    }
    u32::load(b"PIGN", 0)
}

// Writes a control record with nothing pending.
fn put_control(h: usize, family: u64, root: u64, control: &mut [u8])
    requires { (h ≤ 3) × (length control.old ≡ control_length) }
    ensures { control.new ≡ fresh_control h family root }
{
    control.fill(0);
    u32::store(control, 0, mark_of(family));
    control[4] = 1;
    control[control::DEPTH] = h as u8;
    control[6] = 1;
    u64::store(control, control::ROOT, root);
}

// Makes an empty module of a depth and a family: no line is written, nothing is cached or pending.
pub fn format(
    depth: u64,
    family: u64,
    keys: &[u8],
    control: &mut [u8],
    array: &mut [u8],
    cache: &mut [u8],
) -> Answer
    ensures { ended result array.new control.new cache.new
        ≡ format_of keys.now depth family (buffers array.old control.old cache.old) }
{
    if let Err(refusal) = accepted(depth, family, keys, control, array, cache) {
        return refusal.into();
    }
    let h = depth as usize;
    array.fill(0);
    fresh_tree::put_tree(h, keys, array);
    let top = node::in_cell(array, memory_map::node_cell(h, h, 0));
    let root = tag::node_tag(keys, top, h as u64, 0);
    put_control(h, family, root, control);
    cache.fill(0);
    Answer::Done { stores: 0, sum: 0 }
}

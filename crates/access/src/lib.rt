// The refusals that calls have in common, from their inputs and from the state.
#![tactic(auto)]

ghost use Rattle.std.specs.Prelude.{◌≡◌, not, [], ◌∷◌, ◌≤◌, length};
ghost use Rattle.slot_map.specs.Slots.{cache_length};
ghost use Rattle.answer.specs.Refusal.{refusal_of};
ghost use Rattle.cache.specs.Cache.{formed};
ghost use Rattle.calls.specs.Call.{buffers, judged, entry_refusal, access_refusal};
ghost use Rattle.calls.specs.Recovery.{recovery_refusal};
ghost use Rattle.calls.specs.Turn.{turn_refusal};

use answer::Refusal;

// 2 3 21 4 5
pub fn opening(keys: &[u8], control: &[u8], array: &[u8], cache: &[u8]) -> Result<(), Refusal>
    ensures { refusal_of result ≡ recovery_refusal keys.now (buffers array.now control.now cache.now) }
{
    if keys.len() != 48 {
        return Err(Refusal::BadKeysLength);
    }
    if control.len() != control::LENGTH {
        return Err(Refusal::BadControlLength);
    }
    if !control::valid(control) {
        return Err(Refusal::BadControl);
    }
    let h = control::depth(control);
    let array_size = memory_map::array_length(h);
    let cache_size = slot_map::cache_length(h);
    if array.len() != array_size {
        return Err(Refusal::BadArrayLength);
    }
    if cache.len() != cache_size {
        return Err(Refusal::BadCacheLength);
    }
    Ok(())
}

// Then 7 6 22, of a read or a write; the buffer is the output or the text.
fn entry(
    keys: &[u8],
    control: &[u8],
    array: &[u8],
    cache: &[u8],
    line: u64,
    buffer: &[u8],
) -> Result<(), Refusal>
    ensures { refusal_of result ≡ entry_refusal keys.now line buffer.now
        (buffers array.now control.now cache.now) }
{
    opening(keys, control, array, cache)?;
    if buffer.len() != 64 {
        return Err(Refusal::BadBufferLength);
    }
    if memory_map::lines(control::depth(control)) as u64 <= line {
        return Err(Refusal::BadLine);
    }
    if control::count(control) != 0 {
        return Err(Refusal::Pending);
    }
    Ok(())
}

// Last 23 30; a page is kept where it is one that the call must leave to a turn.
fn state(h: usize, cache: &[u8], kept: bool) -> Result<(), Refusal>
    requires { (1 ≤ h) × ((h ≤ 3) × (length cache.now ≡ cache_length h)) }
    ensures { refusal_of result ≡ judged ((not (formed h cache.now), 23) ∷ (kept, 30) ∷ []) }
{
    let shaped = cache::formed(h, cache);
    if !shaped {
        return Err(Refusal::BadCache);
    }
    if kept {
        return Err(Refusal::OpenPage);
    }
    Ok(())
}

// All that a read or a write is refused for before its path is looked at.
pub fn access(
    keys: &[u8],
    control: &[u8],
    array: &[u8],
    cache: &[u8],
    line: u64,
    buffer: &[u8],
) -> Result<(), Refusal>
    ensures { refusal_of result ≡ access_refusal keys.now line buffer.now
        (buffers array.now control.now cache.now) }
{
    entry(keys, control, array, cache, line, buffer)?;
    let kept = control::is_open(control, memory_map::page_of(line as usize) as u64);
    state(control::depth(control), cache, kept)
}

// The same of a turn: 2 3 21 4 5 6 22 23 30.
pub fn turning(
    keys: &[u8],
    control: &[u8],
    array: &[u8],
    cache: &[u8],
    page: u64,
) -> Result<(), Refusal>
    ensures { refusal_of result ≡ turn_refusal keys.now page
        (buffers array.now control.now cache.now) }
{
    opening(keys, control, array, cache)?;
    let h = control::depth(control);
    if memory_map::pages(h) as u64 <= page {
        return Err(Refusal::BadLine);
    }
    if 0 < control::count(control) {
        return Err(Refusal::Pending);
    }
    state(h, cache, control::other_open(control, page))
}

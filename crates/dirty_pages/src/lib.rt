// The list of dirty pages, as a call.
#![tactic(auto)]

ghost use Rattle.std.specs.Prelude.{ℕ, ◌*◌, ◌<◌, ◌≤◌, ◌≡◌, length};
ghost use Rattle.words.specs.Bytes.{bytes_of};
ghost use Rattle.answer.specs.Refusal.{refusal_of};
ghost use Rattle.cache.specs.Cache.{owner as owner_of, dirty as dirty_of};
ghost use Rattle.calls.specs.DirtyPages.{list_refusal, dirty_pages};
ghost use Rattle.rising.specs.Rising.{rising};
ghost use Rattle.dirty_pages.specs.Entry.{entry as entry_of};

use answer::{Answer, Refusal};

// The call's inputs accepted, or its refusal: 3 21 5 7 23.
fn accepted(control: &[u8], cache: &[u8], out: &[u8]) -> Result<(), Refusal>
    ensures { refusal_of result ≡ list_refusal control.now cache.now out.now }
{
    if control.len() != control::LENGTH {
        return Err(Refusal::BadControlLength);
    }
    if !control::valid(control) {
        return Err(Refusal::BadControl);
    }
    let h = control::depth(control);
    let size = slot_map::cache_length(h);
    if cache.len() != size {
        return Err(Refusal::BadCacheLength);
    }
    if out.len() != 32 {
        return Err(Refusal::BadBufferLength);
    }
    if !cache::formed(h, cache) {
        return Err(Refusal::BadCache);
    }
    Ok(())
}

// What counter slot s gives the list: its page where it is dirty, else the number of a spare place, all FF hex.
fn entry(cache: &[u8], s: usize) -> u64
    requires s_bound { (s < 4) × (73 * 4 ≤ length cache.now) }
    requires clean { owner_of cache.now s ≡ 0 → dirty_of cache.now s ≡ 0 }
    ensures { result ≡ entry_of cache.now s }
{
    if cache::dirty(cache, s) == 1 {
        cache::owner(cache, s) - 1
    } else {
        u64::MAX
    }
}

// Writes what the counter slots give, in rising sequence: spare places, as the largest numbers, come last.
fn put_pages(cache: &[u8], out: &mut [u8])
    requires in_bounds { (73 * 4 ≤ length cache.now) × (length out.old ≡ 32) }
    requires clean { (s : ℕ) → s < 4 → owner_of cache.now s ≡ 0 → dirty_of cache.now s ≡ 0 }
    ensures { out.new ≡ bytes_of 8 (rising (entry_of cache.now 0) (entry_of cache.now 1)
        (entry_of cache.now 2) (entry_of cache.now 3)) }
{
    let a = entry(cache, 0);
    let b = entry(cache, 1);
    let c = entry(cache, 2);
    let d = entry(cache, 3);
    rising::put_rising(out, a, b, c, d);
}

// Writes the pages of dirty counter slots as 8-byte numbers into 32 bytes, in rising number, and FF hex after them.
pub fn dirty_pages(control: &[u8], cache: &[u8], out: &mut [u8]) -> Answer
    ensures { record { answer = result; output = out.new }
        ≡ dirty_pages control.now cache.now out.old }
{
    if let Err(refusal) = accepted(control, cache, out) {
        return refusal.into();
    }
    put_pages(cache, out);
    Answer::Done { stores: 0, sum: 0 }
}

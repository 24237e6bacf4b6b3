// The counters of the pages that the shadow lists, brought forward.
#![tactic(auto)]

ghost use Rattle.std.specs.Prelude.{◌≡◌, cond, ℕ, ◌+◌, ◌*◌, ◌<◌, ◌≤◌, length, get_or, take};
ghost use Rattle.counter.specs.Counter.{counter_block};
ghost use Rattle.control.specs.Control.{control_length, is_open};
ghost use Rattle.cache.specs.Cache.{with_slot};
ghost use Rattle.node.specs.Sized.{Sized};
ghost use Rattle.journal.specs.Journal.{media};
ghost use Rattle.calls.specs.Recovery.{by_phase, by_choice, line_step, rebuild_blocks};
ghost use Rattle.forwarding.specs.Rebuild.{Placed, source_is, as_step, counted};

use answer::Refusal;
use candidates::Choice;
use words::Word;

// The line that ends bringing the counters forward, and why.
#[derive(Clone, Copy, Debug, PartialEq, Eq)]
pub struct Failed {
    pub refusal: Refusal,
    pub line: u64,
}

// A minor brought forward to a phase; a phase over 3 fails, and a minor past 127.
fn forwarded(minor: u8, phase: u8) -> Result<u8, Refusal>
    requires { minor < 128 }
    ensures { as_step result ≡ by_phase minor phase }
{
    if 3 < phase {
        return Err(Refusal::BadPhase);
    }
    let new = counter::forward(minor as u64, phase as u64);
    if 127 < new {
        return Err(Refusal::BadCounter);
    }
    Ok(new as u8)
}

// The only candidate that fits; none fails, and several.
fn only(choice: Choice) -> Result<u8, Refusal>
    ensures { as_step result ≡ by_choice choice }
{
    match choice {
        Choice::None => Err(Refusal::NoCounter),
        Choice::Only(v) => Ok(v),
        Choice::Several => Err(Refusal::SeveralCounters),
    }
}

// The step of a line whose stored minor this is: its new minor, or how it fails.
fn step(
    family: u64,
    keys: &[u8],
    array: &[u8],
    line: usize,
    major: u64,
    minor: u8,
) -> Result<u8, Refusal>
    requires { (length keys.now ≡ 48) × ((minor < 128) × (72 * line + 72 ≤ length array.now)) }
    ensures { as_step result ≡ line_step (source_is family keys.now array.now major) line minor }
{
    if family == 0 {
        return forwarded(minor, array[72 * line + 64]);
    }
    only(candidates::choose(keys, node::cell(array, line), line as u64, major, minor))
}

// How many lines of a page are brought forward: all, or none where the page is open.
fn lines_read(control: &[u8], page: usize) -> usize
    requires { length control.now ≡ control_length }
    ensures value { result ≡ cond (is_open control.now page) 0 64 }
    ensures few { result ≤ 64 }
{
    let open = control::is_open(control, page as u64);
    if open { 0 } else { 64 }
}

// Writes a slot with a counter block: it is dirty.
fn put_block(image: &mut [u8], s: usize, owner: u64, major: u64, minors: &[u8])
    requires s_in_bounds { (73 * s + 73 ≤ length image.old) × (length minors.now ≡ 64) }
    requires by_index { (i : ℕ) → get_or minors.now i 0 < 128 }
    ensures { image.new ≡ with_slot image.old s owner 1 (counter_block major minors.now) }
{
    let at = 73 * s;
    u64::store(image, at, owner);
    image[at + 8] = 1;
    minors::pack(major, minors, at + 9, image);
}

// Fills the counter slots that have an owner: each block of the array with its minors brought forward by the cells
// of their lines, or as it is where its page is open. The first line that fails ends it.
pub fn rebuild_counters(
    h: usize,
    keys: &[u8],
    control: &[u8],
    array: &[u8],
    owners: [u64; 10],
    image: &mut [u8],
) -> Result<u64, Failed>
    requires { (length keys.now ≡ 48) × ((length control.now ≡ control_length)
        × (Sized h array.now image.old × Placed h owners)) }
    ensures { counted result image.new
        ≡ rebuild_blocks h keys.now (media array.now control.now) 0 (take 4 owners)
        image.old 0 }
{
    let family = control::family(control);
    let mut sum = 0;
    let mut failed = None;
    'slots: for s in 0..4 {
        let owner = owners[s] as usize;
        if owner != 0 {
            let page = owner - 1;
            let block = node::in_cell(array, memory_map::node_cell(h, 0, page));
            let major = counter::major(block);
            let mut minors = [0u8; 64];
            minors::unpack(block, &mut minors);
            for j in 0..lines_read(control, page) {
                let minor = minors[j];
                match step(family, keys, array, 64 * page + j, major, minor) {
                    Ok(new) => {
                        minors[j] = new;
                        sum += (new - minor) as u64;
                    }
                    Err(refusal) => {
                        let line = (64 * page + j) as u64;
                        failed = Some(Failed { refusal, line });
                        break 'slots;
                    }
                }
            }
            put_block(image, s, owner as u64, major, &minors);
        }
    }
    match failed {
        None => Ok(sum),
        Some(failed) => Err(failed),
    }
}

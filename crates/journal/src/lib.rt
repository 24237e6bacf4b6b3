// The stores of a batch, made on the lent array and control record as far as an allowance goes.
#![tactic(auto)]

ghost use Rattle.std.specs.Prelude.{◌≡◌, true, ◌∷◌, map, min, ◌+◌, ◌-◌, ◌*◌, ◌/◌, ◌<◌, ◌≤◌, length};
ghost use Rattle.words.specs.Bytes.{to_le, put};
ghost use Rattle.control.specs.Control.{control_length, place_at, places, turn_bytes, queue, in_map, count, count_at};
ghost use Rattle.journal.specs.Journal.{media, store_all, made, committing, committing_turn, pending_stores, Stored};
ghost use Rattle.journal.specs.Journal.Store.{cell};

use copying::copy;
use words::Word;

// Stores the first n cells of the queue.
fn store_cells(array: &mut [u8], control: &[u8], n: usize)
    requires { (length control.now ≡ control_length)
        × ((n ≤ 8) × (in_map (length array.old / 72) (places control.now (place_at 0) n) ≡ true)) }
    ensures { media array.new control.now
        ≡ store_all (media array.old control.now) (map cell (places control.now (place_at 0) n)) }
{
    for j in 0..n {
        let at = control::PLACES + 80 * j;
        let number = u64::load(control, at) as usize;
        copy(array, 72 * number, control, at + 8, 72);
    }
}

// Stores the count with the new root. The count comes last: until it is there, nothing is pending.
fn commit(control: &mut [u8], n: usize, root: u64)
    requires { (length control.old ≡ control_length) × (n ≤ 8) }
    ensures { control.new ≡ put control.old count_at (n ∷ to_le 8 root) }
{
    u64::store(control, control::NEW_ROOT, root);
    control[control::COUNT] = n as u8;
}

// Makes the stores that a pending batch still wants, as far as the allowance goes, and tells how many.
pub fn finish(array: &mut [u8], control: &mut [u8], allowance: u64) -> u64
    requires { (length control.old ≡ control_length)
        × ((count control.old ≤ 8) × (in_map (length array.old / 72) (queue control.old) ≡ true)) }
    ensures { Stored allowance (pending_stores control.old)
        (media array.old control.old) (media array.new control.new) result }
{
    let n = control::count(control);
    if n == 0 {
        return 0;
    }
    let cells = (n as u64).min(allowance);
    store_cells(array, control, cells as usize);
    if allowance <= n as u64 {
        return cells;
    }
    let root = control::new_root(control);
    u64::store(control, control::ROOT, root);
    if allowance == n as u64 + 1 {
        return allowance;
    }
    control[control::COUNT] = 0;
    n as u64 + 2
}

// Makes the stores of a batch of n cells, as far as the allowance goes, and tells how many. Those that it allows of the
// cells are staged: the commit comes next.
pub fn run(array: &mut [u8], control: &mut [u8], n: usize, root: u64, allowance: u64) -> u64
    requires { (length control.old ≡ control_length) × (((1 ≤ n) × (n ≤ 8))
        × (n < allowance → in_map (length array.old / 72) (places control.old (place_at 0) n) ≡ true)) }
    ensures control_after { media array.new control.new ≡ store_all (media array.old control.old)
        (made (allowance - n) (committing (places control.old (place_at 0) n) root)) }
    ensures value { result ≡ min n allowance
        + length (made (allowance - n) (committing (places control.old (place_at 0) n) root)) }
{
    if allowance <= n as u64 {
        return allowance;
    }
    commit(control, n, root);
    let left = allowance - n as u64 - 1;
    n as u64 + 1 + finish(array, control, left)
}

// The same for a batch of a turn, whose commit also stores the section: its count, its page and its mask. A call in the machine code
// too: where a compiler sees that a section becomes all zero, it may store the count ahead of the mask.
#[inline(never)]
pub fn run_turn(
    array: &mut [u8],
    control: &mut [u8],
    n: usize,
    root: u64,
    count: u8,
    page: u64,
    mask: u64,
    allowance: u64,
) -> u64
    requires { (length control.old ≡ control_length) × (((1 ≤ n) × (n ≤ 8))
        × (n < allowance → in_map (length array.old / 72) (places control.old (place_at 0) n) ≡ true)) }
    ensures control_after { media array.new control.new ≡ store_all (media array.old control.old)
        (made (allowance - n) (committing_turn (places control.old (place_at 0) n) root (turn_bytes count page mask))) }
    ensures value { result ≡ min n allowance + length (made (allowance - n)
        (committing_turn (places control.old (place_at 0) n) root (turn_bytes count page mask))) }
{
    let cells = n as u64;
    if allowance <= cells {
        return allowance;
    }
    control::put_turn(control, count, page, mask);
    run(array, control, n, root, allowance)
}

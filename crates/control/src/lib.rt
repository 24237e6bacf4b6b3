// The persistent control record: its fields, and whether it is valid.
#![tactic(auto)]

ghost use Rattle.std.specs.Prelude.{◌≡◌, ◌<◌, ◌≤◌, length};
ghost use Rattle.words.specs.Bytes.{put};
ghost use Rattle.memory_map.specs.Map.{pages as pages_of};
ghost use Rattle.control.specs.Control.{
  control_length,
  places,
  place_at,
  in_map,
  family as family_of,
  depth as depth_of,
  root as root_of,
  count as count_of,
  new_root as new_root_of,
  turn_mask as turn_mask_of,
  turn_at,
  turn_bytes,
  is_open,
  other_open,
  valid_mark,
  valid_head,
  valid_turn,
  valid as is_valid,
};

use words::Word;

// Where the fields are; PLACES is the first place of the queue, TURN the section of a turn, LENGTH the record's own length.
pub const DEPTH: usize = 5;

pub const ROOT: usize = 7;

pub const COUNT: usize = 15;

pub const NEW_ROOT: usize = 16;

pub const PLACES: usize = 24;

const TURN: usize = 664;

const TURN_PAGE: usize = 665;

const TURN_MASK: usize = 673;

pub const LENGTH: usize = 681;

// The family that the mark tells: 1 for modules without phase bytes, else 0.
pub fn family(control: &[u8]) -> u64
    requires { length control.now ≡ control_length }
    ensures { result ≡ family_of control.now }
{
    if u32::load(control, 0) == u32::load(b"PIGN", 0) {
        return 1;
    }
    0
}

pub fn depth(control: &[u8]) -> usize
    requires { length control.now ≡ control_length }
    ensures { result ≡ depth_of control.now }
{
    usize::from(control[DEPTH])
}

pub fn root(control: &[u8]) -> u64
    requires { length control.now ≡ control_length }
    ensures { result ≡ root_of control.now }
{
    u64::load(control, ROOT)
}

// The number of pending cells.
pub fn count(control: &[u8]) -> usize
    requires { length control.now ≡ control_length }
    ensures { result ≡ count_of control.now }
{
    usize::from(control[COUNT])
}

pub fn new_root(control: &[u8]) -> u64
    requires { length control.now ≡ control_length }
    ensures { result ≡ new_root_of control.now }
{
    u64::load(control, NEW_ROOT)
}

// The lines still to turn of the page that is open.
pub fn turn_mask(control: &[u8]) -> u64
    requires { length control.now ≡ control_length }
    ensures { result ≡ turn_mask_of control.now }
{
    u64::load(control, TURN_MASK)
}

// Writes the section of a turn, its count last.
pub fn put_turn(control: &mut [u8], count: u8, page: u64, mask: u64)
    requires { length control.old ≡ control_length }
    ensures { control.new ≡ put control.old turn_at (turn_bytes count page mask) }
{
    u64::store(control, TURN_MASK, mask);
    u64::store(control, TURN_PAGE, page);
    control[TURN] = count;
}

// Whether page p is open.
pub fn is_open(control: &[u8], p: u64) -> bool
    requires { length control.now ≡ control_length }
    ensures { result ≡ is_open control.now p }
{
    control[TURN] == 1 && u64::load(control, TURN_PAGE) == p
}

// Whether a page other than p is.
pub fn other_open(control: &[u8], p: u64) -> bool
    requires { length control.now ≡ control_length }
    ensures { result ≡ other_open control.now p }
{
    control[TURN] == 1 && u64::load(control, TURN_PAGE) != p
}

// Whether the mark is that of a family.
fn valid_mark(control: &[u8]) -> bool
    requires { length control.now ≡ control_length }
    ensures { result ≡ valid_mark control.now }
{
    let mark = u32::load(control, 0);
    if mark == u32::load(b"PIGK", 0) {
        return true;
    }
    mark == u32::load(b"PIGN", 0)
}

// Whether mark, counts and depth are right.
fn valid_head(control: &[u8]) -> bool
    requires { length control.now ≡ control_length }
    ensures { result ≡ valid_head control.now }
{
    if !valid_mark(control) {
        return false;
    }
    if control[4] != 1 {
        return false;
    }
    if control[6] != 1 {
        return false;
    }
    if control[DEPTH] < 1 {
        return false;
    }
    if 3 < control[DEPTH] {
        return false;
    }
    control[COUNT] <= 8
}

// Whether each of the first n queue places has a cell number below the bound.
fn cells_below(control: &[u8], n: usize, bound: usize) -> bool
    requires { (length control.now ≡ control_length) × (n ≤ 8) }
    ensures { result ≡ in_map bound (places control.now (place_at 0) n) }
{
    for j in 0..n {
        if bound as u64 <= u64::load(control, PLACES + 80 * j) {
            return false;
        }
    }
    true
}

// Whether an open page is below the bound and has a line to turn.
fn valid_turn(control: &[u8], bound: usize) -> bool
    requires { (length control.now ≡ control_length) × (bound ≡ pages_of (depth_of control.now)) }
    ensures { result ≡ valid_turn control.now }
{
    if control[TURN] == 0 {
        return true;
    }
    if 1 < control[TURN] {
        return false;
    }
    if bound as u64 <= u64::load(control, TURN_PAGE) {
        return false;
    }
    0 < u64::load(control, TURN_MASK)
}

// Whether the record is valid: refusal 21 is that it is not.
pub fn valid(control: &[u8]) -> bool
    requires { length control.now ≡ control_length }
    ensures { result ≡ is_valid control.now }
{
    if !valid_head(control) {
        return false;
    }
    let h = depth(control);
    if !cells_below(control, count(control), memory_map::cells(h)) {
        return false;
    }
    valid_turn(control, memory_map::pages(h))
}

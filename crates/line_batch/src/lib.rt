// The batch of a write: the cells of its path, its counter block, its data cell.
#![tactic(auto)]

ghost use Rattle.std.specs.Prelude.{◌≡◌, true, suc, ◌+◌, ◌^◌, ◌<◌, ◌≤◌, length};
ghost use Rattle.memory_map.specs.Map.{pages, lines, page_of};
ghost use Rattle.slot_map.specs.Slots.{cache_length};
ghost use Rattle.control.specs.Control.{control_length};
ghost use Rattle.batch.specs.Batch.{staged, staged_from};
ghost use Rattle.cache.specs.Cache.{formed};
ghost use Rattle.calls.specs.Path.{node_cell};
ghost use Rattle.calls.specs.Write.{line_cell};
ghost use Rattle.call_laws.specs.Line.{block_cells, line_cells};
ghost use Rattle.call_laws.specs.Walk.{missing as missing_nodes, path_cells};

use words::Word;

// Writes the 72 bytes of a data cell.
fn seal(family: u64, keys: &[u8], line: usize, text: &[u8], major: u64, minor: u64, cell: &mut [u8])
    requires { (length keys.now ≡ 48) × ((line < 2 ^ 32) × ((length text.now ≡ 64) × ((minor < 128)
        × (length cell.old ≡ 72)))) }
    ensures { cell.new ≡ (line_cell family keys.now line text.now major minor).bytes }
{
    pad::apply(
        keys,
        line as u32,
        major,
        minor as u32,
        text,
        &mut cell[0..64],
    );
    let side = side::word(family, keys, &cell[0..64], line as u64, major, minor);
    u64::store(cell, 64, side);
}

// Stages the data cell of a text at a counter as cell n of a batch.
pub fn put_data(
    family: u64,
    keys: &[u8],
    line: usize,
    text: &[u8],
    major: u64,
    minor: u64,
    control: &mut [u8],
    n: usize,
    allowance: u64,
)
    requires { (length keys.now ≡ 48) × ((line < 2 ^ 32) × ((length text.now ≡ 64) × ((minor < 128)
        × ((length control.old ≡ control_length) × (n < 8))))) }
    ensures { control.new
        ≡ staged allowance n (line_cell family keys.now line text.now major minor) control.old }
{
    if (n as u64) < allowance {
        let at = control::PLACES + 80 * n;
        u64::store(control, at, line as u64);
        seal(
            family,
            keys,
            line,
            text,
            major,
            minor,
            &mut control[at + 8..at + 80],
        );
    }
}

// Stages the cells of the path, and tells how many there are.
pub fn put_path(
    h: usize,
    cache: &[u8],
    p: usize,
    missing: u64,
    control: &mut [u8],
    allowance: u64,
) -> usize
    requires le_h { (1 ≤ h) × ((h ≤ 3) × ((length cache.now ≡ cache_length h) × ((formed h cache.now ≡ true) × (p < pages h)))) }
    requires control_len { (length control.old ≡ control_length) × ((length (path_cells h cache.now p (suc h)) ≤ 8)
        × (missing ≡ missing_nodes cache.now p (suc h))) }
    ensures control_after { control.new ≡ staged_from allowance 0 (path_cells h cache.now p (suc h)) control.old }
    ensures value { result ≡ length (path_cells h cache.now p (suc h)) }
{
    if missing == 0 {
        return 0;
    }
    loading::gather(h, cache, p, control, allowance)
}

// Stages the counter block of page p as cell n of a batch.
pub fn put_block(h: usize, p: usize, block: &[u8], control: &mut [u8], n: usize, allowance: u64)
    requires { (1 ≤ h) × ((h ≤ 3) × ((p < pages h) × ((length block.now ≡ 64)
        × ((length control.old ≡ control_length) × (n < 8))))) }
    ensures { control.new ≡ staged allowance n (node_cell h 0 p block.now) control.old }
{
    let cell = memory_map::node_cell(h, 0, p);
    batch::put_cell(control, n, allowance, cell, block, 0);
}

// The same where its new minor is a multiple of 4; tells how many cells there then are.
fn put_due_block(
    h: usize,
    p: usize,
    minor: u64,
    block: &[u8],
    control: &mut [u8],
    n: usize,
    allowance: u64,
) -> usize
    requires { (1 ≤ h) × ((h ≤ 3) × ((p < pages h) × ((length block.now ≡ 64)
        × ((length control.old ≡ control_length) × (n < 8))))) }
    ensures control_after { control.new ≡ staged_from allowance n (block_cells h p minor block.now) control.old }
    ensures value { result ≡ n + length (block_cells h p minor block.now) }
{
    if minor % 4 != 0 {
        return n;
    }
    put_block(h, p, block, control, n, allowance);
    n + 1
}

// A write to a line whose path is found: the counter that it is at, and how many nodes of the line's path the cache lacks.
#[derive(Clone, Copy)]
pub struct LineWrite {
    pub line: usize,
    pub major: u64,
    pub minor: u64,
    pub missing: u64,
}

// Stages the batch of a write of a text, whose page then has this counter block, and tells how many cells it has.
pub fn gather(
    h: usize,
    family: u64,
    keys: &[u8],
    cache: &[u8],
    w: LineWrite,
    text: &[u8],
    block: &[u8],
    control: &mut [u8],
    allowance: u64,
) -> usize
    requires keys_len { (length keys.now ≡ 48) × ((length text.now ≡ 64) × ((w.minor < 128) × (length block.now ≡ 64))) }
    requires le_h { (1 ≤ h) × ((h ≤ 3) × ((length cache.now ≡ cache_length h) × ((formed h cache.now ≡ true) × (w.line < lines h)))) }
    requires control_len { (length control.old ≡ control_length) × ((w.missing ≡ missing_nodes cache.now (page_of w.line) (suc h))
        × (length (line_cells h family keys.now cache.now w.line text.now w.major w.minor block.now) ≤ 8)) }
    ensures control_after { control.new ≡ staged_from allowance 0 (line_cells h family keys.now cache.now w.line
        text.now w.major w.minor block.now) control.old }
    ensures value { result ≡ length (line_cells h family keys.now cache.now w.line text.now w.major w.minor
        block.now) }
{
    let p = memory_map::page_of(w.line);
    let i = put_path(h, cache, p, w.missing, control, allowance);
    let held = put_due_block(h, p, w.minor, block, control, i, allowance);
    put_data(
        family, keys, w.line, text, w.major, w.minor, control, held, allowance,
    );
    held + 1
}

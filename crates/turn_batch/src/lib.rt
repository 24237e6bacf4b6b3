// The cells of a turn's batches, staged: those that the first one starts with, a line, and those of the last one.
#![tactic(auto)]

ghost use Rattle.std.specs.Prelude.{◌≡◌, true, ◌∷◌, map, suc, ◌+◌, ◌*◌, ◌^◌, ◌<◌, ◌≤◌, length};
ghost use Rattle.bits.specs.Bits.{set_bits};
ghost use Rattle.memory_map.specs.Map.{pages, array_length};
ghost use Rattle.control.specs.Control.{control_length};
ghost use Rattle.batch.specs.Batch.{staged, staged_from};
ghost use Rattle.cache.specs.Cache.{formed};
ghost use Rattle.node.specs.Sized.{Sized};
ghost use Rattle.calls.specs.Path.{node_cell};
ghost use Rattle.calls.specs.Turn.{turn_places, turn_front};
ghost use Rattle.call_laws.specs.Walk.{missing as missing_nodes, path_cells, with_path};
ghost use Rattle.turn_batch.specs.Fresh.{fresh_cell, fresh_line};

// Stages a line encrypted afresh as cell n of a batch.
pub fn put_line(
    family: u64,
    keys: &[u8],
    array: &[u8],
    line: usize,
    major: u64,
    minor: u8,
    control: &mut [u8],
    n: usize,
    allowance: u64,
)
    requires { (length keys.now ≡ 48) × ((line < 2 ^ 32) × ((72 * line + 72 ≤ length array.now) × ((suc major < 2 ^ 64)
        × ((length control.old ≡ control_length) × (n < 8))))) }
    ensures { control.new
        ≡ staged allowance n (fresh_cell family keys.now array.now line major minor) control.old }
{
    if (n as u64) < allowance {
        let mut text = [0u8; 64];
        let content = node::in_cell(array, line);
        pad::apply(
            keys,
            line as u32,
            major,
            u32::from(minor),
            content,
            &mut text,
        );
        line_batch::put_data(
            family,
            keys,
            line,
            &text,
            major + 1,
            1,
            control,
            n,
            allowance,
        );
    }
}

// A page that is to be turned: how many nodes of its path the cache lacks, the major and the minors of its counter block, and as the set
// bits of a number the places that are still to turn.
#[derive(Clone, Copy)]
pub struct PageTurn<'a> {
    pub p: usize,
    pub missing: u64,
    pub major: u64,
    pub minors: &'a [u8],
    pub mask: u64,
}

// Stages what the first batch of a turn starts with: the cells of the path, then, where two lines or more are left of a page that is not
// open, its counter block as it is. Tells how many cells there are.
pub fn put_front<'a>(
    h: usize,
    array: &'a [u8],
    cache: &'a [u8],
    t: &PageTurn<'_>,
    control: &mut [u8],
    allowance: u64,
) -> usize
    requires sized { Sized h array.now cache.now × ((formed h cache.now ≡ true) × ((t.now.p < pages h)
        × ((length control.old ≡ control_length) × (t.now.missing ≡ missing_nodes cache.now t.now.p (suc h))))) }
    requires mask_value { set_bits t.now.mask ≡ turn_places control.old (with_path h array.now t.now.p (suc h) cache.now) t.now.p }
    ensures control_after { control.new ≡ staged_from allowance 0 (turn_front h control.old
        (with_path h array.now t.now.p (suc h) cache.now) t.now.p (path_cells h cache.now t.now.p (suc h)))
        control.old }
    ensures value { result ≡ length (turn_front h control.old
        (with_path h array.now t.now.p (suc h) cache.now) t.now.p (path_cells h cache.now t.now.p (suc h))) }
{
    let open = control::is_open(control, t.p as u64);
    let n = line_batch::put_path(h, cache, t.p, t.missing, control, allowance);
    if open {
        return n;
    }
    if bits::remaining(t.mask) < 2 {
        return n;
    }
    let block = node::current(h, array, cache, 0, t.p);
    line_batch::put_block(h, t.p, block, control, n, allowance);
    n + 1
}

// Stages what the last batch of a turn ends with, behind n cells: the new counter block, then the line that is left, if one is. Tells how
// many cells there then are.
pub fn put_last(
    h: usize,
    family: u64,
    keys: &[u8],
    array: &[u8],
    t: &PageTurn<'_>,
    block: &[u8],
    rest: u64,
    control: &mut [u8],
    n: usize,
    allowance: u64,
) -> usize
    requires keys_len { (length keys.now ≡ 48) × ((1 ≤ h) × ((h ≤ 3) × ((length array.now ≡ array_length h) × ((t.now.p < pages h)
        × ((suc t.now.major < 2 ^ 64) × ((length t.now.minors.now ≡ 64) × (length block.now ≡ 64))))))) }
    requires rest_len_bound { (length (set_bits rest) < 2) × ((length control.old ≡ control_length) × (n < 7)) }
    ensures control_after { control.new ≡ staged_from allowance n (node_cell h 0 t.now.p block.now
        ∷ map (fresh_line family keys.now array.now t.now.p t.now.major t.now.minors.now) (set_bits rest))
        control.old }
    ensures value { result ≡ n + suc (length (set_bits rest)) }
{
    line_batch::put_block(h, t.p, block, control, n, allowance);
    if rest == 0 {
        return n + 1;
    }
    let j = bits::lowest(rest);
    let line = 64 * t.p + j;
    let minor = t.minors[j];
    put_line(
        family,
        keys,
        array,
        line,
        t.major,
        minor,
        control,
        n + 1,
        allowance,
    );
    n + 2
}

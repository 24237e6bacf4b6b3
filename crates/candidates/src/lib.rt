// The candidates for a line's minor in a module without phase bytes: the stored minor and the next three, and the choice among them.
#![tactic(auto)]

ghost use Rattle.std.specs.Prelude.{◌≡◌, true, ◌&&◌, ◌<◌, leb, length};
ghost use Rattle.candidates.specs.Candidates.{all_zero, also as also_of, choice};
ghost use Rattle.candidates.specs.Hashed.{hash_fits};

use words::Word;

// None of them fits the line's cell, only one does, or several do.
#[derive(Clone, Copy, Debug, PartialEq, Eq)]
pub enum Choice {
    None,
    Only(u8),
    Several,
}

// The choice among earlier candidates, and one more that fits.
fn also(earlier: Choice, v: u8) -> Choice
    ensures { result ≡ also_of earlier v true }
{
    match earlier {
        Choice::None => Choice::Only(v),
        Choice::Only(_) => Choice::Several,
        Choice::Several => Choice::Several,
    }
}

// Whether a cell, 72 bytes, is all zero.
fn all_zero(cell: &[u8]) -> bool
    requires { length cell.now ≡ 72 }
    ensures { result ≡ all_zero cell.now }
{
    (0..9).all(|i| u64::load(cell, 8 * i) == 0)
}

// Whether a cell fits a minor, by the state of its hash before the minor.
fn fits_minor(state: [u64; 4], cell: &[u8], v: u8) -> bool
    requires { length cell.now ≡ 72 }
    ensures { result ≡ hash_fits state cell.now v }
{
    if v == 0 {
        return all_zero(cell);
    }
    u64::load(cell, 64) == tag::data_hash_from(state, u64::from(v))
}

// The choice among earlier candidates, and v, if it is not past 127.
fn with_candidate(earlier: Choice, state: [u64; 4], cell: &[u8], v: u8) -> Choice
    requires { length cell.now ≡ 72 }
    ensures { result ≡ also_of earlier v (leb v 127 && hash_fits state cell.now v) }
{
    if v <= 127 && fits_minor(state, cell, v) {
        also(earlier, v)
    } else {
        earlier
    }
}

// The choice for a line whose stored minor this is, under a major. Content, line and major are hashed once.
pub fn choose(keys: &[u8], cell: &[u8], line: u64, major: u64, minor: u8) -> Choice
    requires { (length keys.now ≡ 48) × ((length cell.now ≡ 72) × (minor < 128)) }
    ensures { result ≡ choice keys.now cell.now line major minor }
{
    let state = tag::data_state(keys, &cell[0..64], line, major);
    let mut chosen = Choice::None;
    for k in 0..4 {
        chosen = with_candidate(chosen, state, cell, minor + k);
    }
    chosen
}

// The text of a line whose counter is known: whether its data cell fits the counter, and what it reads as.
#![tactic(auto)]

ghost use Rattle.std.specs.Prelude.{◌≡◌, cond, ◌+◌, ◌*◌, ◌^◌, ◌<◌, ◌≤◌, eqb, length};
ghost use Rattle.pad.specs.Pad.{pad as pad_of, xor_bytes};
ghost use Rattle.side.specs.Side.{side_fits};
ghost use Rattle.answer.specs.declared.Answer.TheVariants.{Done, Blank};
ghost use Rattle.cache.specs.Cache.{cell_bytes, cell_content};
ghost use Rattle.calls.specs.Read.{blank_text};

use answer::Answer;

// Each byte that a line never written reads as.
const BLANK: u8 = 255;

// Whether a line's data cell has the side bytes of a counter.
pub fn side_ok(family: u64, keys: &[u8], array: &[u8], line: usize, major: u64, minor: u64) -> bool
    requires { (length keys.now ≡ 48) × (72 * line + 72 ≤ length array.now) }
    ensures { result ≡ side_fits family keys.now (cell_bytes array.now line) line major minor }
{
    side::matches(
        family,
        keys,
        node::cell(array, line),
        line as u64,
        major,
        minor,
    )
}

// Writes what a line reads as at a counter, once its stores are made, and answers.
pub fn give(
    keys: &[u8],
    array: &[u8],
    line: usize,
    major: u64,
    minor: u64,
    stores: u64,
    out: &mut [u8],
) -> Answer
    requires { (length keys.now ≡ 48) × ((72 * line + 72 ≤ length array.now)
        × ((line < 2 ^ 32) × ((minor < 128) × (length out.old ≡ 64)))) }
    ensures value { result ≡ cond (eqb minor 0) (Blank stores) (Done stores 0) }
    ensures out_after { out.new ≡ cond (eqb minor 0) blank_text
        (xor_bytes (cell_content array.now line) (pad_of keys.now line major minor)) }
{
    if minor == 0 {
        copying::fill(out, 0, 64, BLANK);
        return Answer::Blank { stores };
    }
    pad::apply(
        keys,
        line as u32,
        major,
        minor as u32,
        node::in_cell(array, line),
        out,
    );
    Answer::Done { stores, sum: 0 }
}

// What the bench program prints of an answer, behind the first bytes of a buffer.
#![tactic(auto)]

ghost use Rattle.std.specs.Prelude.{◌+◌, ◌≤◌, length};
ghost use Rattle.number_text.specs.Text.{Appended};
ghost use Rattle.answer_text.specs.Printed.{answer_text, read_text, recover_text};

use answer::Answer;
use number_text::append_number;

pub fn append_answer(buf: &mut [u8], at: usize, answer: Answer) -> usize
    requires { at + 29 ≤ length buf.old }
    ensures appended { Appended buf.old buf.new at result (answer_text answer) }
    ensures upper_bound { result ≤ at + 29 }
{
    match answer {
        Answer::Done { stores, sum: _ } => append_number(buf, at, b" done ", stores),
        Answer::Blank { stores } => append_number(buf, at, b" blank ", stores),
        Answer::Cut { stores } => append_number(buf, at, b" cut ", stores),
        Answer::Refused {
            number,
            stores: _,
            first: _,
            second: _,
        } => append_number(buf, at, b" refused ", number),
    }
}

// The first byte of a line that was read.
pub fn append_first(buf: &mut [u8], at: usize, answer: Answer, first: u8) -> usize
    requires { at + 21 ≤ length buf.old }
    ensures appended { Appended buf.old buf.new at result (read_text answer first) }
    ensures upper_bound { result ≤ at + 21 }
{
    match answer {
        Answer::Done { stores: _, sum: _ } => append_number(buf, at, b" ", first as u64),
        Answer::Blank { stores: _ } => append_number(buf, at, b" ", first as u64),
        Answer::Cut { stores: _ } => at,
        Answer::Refused {
            number: _,
            stores: _,
            first: _,
            second: _,
        } => at,
    }
}

// The sum of a recovery.
pub fn append_sum(buf: &mut [u8], at: usize, answer: Answer) -> usize
    requires { at + 21 ≤ length buf.old }
    ensures appended { Appended buf.old buf.new at result (recover_text answer) }
    ensures upper_bound { result ≤ at + 21 }
{
    match answer {
        Answer::Done { stores: _, sum } => append_number(buf, at, b" ", sum),
        Answer::Blank { stores: _ } => at,
        Answer::Cut { stores: _ } => at,
        Answer::Refused {
            number: _,
            stores: _,
            first: _,
            second: _,
        } => at,
    }
}

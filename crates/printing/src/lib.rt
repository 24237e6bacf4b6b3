// What the bench program prints for a command: its line, in a buffer.
#![tactic(auto)]

ghost use Rattle.std.specs.Prelude.{◌≡◌, ◌≤◌, length, take};
ghost use Rattle.answer_text.specs.Printed.{write_line, read_line, recover_line, line_of};

use answer::Answer;
use answer_text::{append_answer, append_first, append_sum};
use commands::Command;
use number_text::{append, append_number};

fn print_write(buf: &mut [u8], line: u64, answer: Answer) -> usize
    requires { length buf.old ≡ 80 }
    ensures { (take result buf.new ≡ write_line line answer) × (result ≤ 80) }
{
    let named = append_number(buf, 0, b"w ", line);
    let answered = append_answer(buf, named, answer);
    append(buf, answered, b"\n")
}

fn print_read(buf: &mut [u8], line: u64, answer: Answer, first: u8) -> usize
    requires { length buf.old ≡ 80 }
    ensures { (take result buf.new ≡ read_line line answer first) × (result ≤ 80) }
{
    let named = append_number(buf, 0, b"r ", line);
    let answered = append_answer(buf, named, answer);
    let end = append_first(buf, answered, answer, first);
    append(buf, end, b"\n")
}

fn print_recover(buf: &mut [u8], answer: Answer) -> usize
    requires { length buf.old ≡ 80 }
    ensures { (take result buf.new ≡ recover_line answer) × (result ≤ 80) }
{
    let named = append(buf, 0, b"p");
    let answered = append_answer(buf, named, answer);
    let end = append_sum(buf, answered, answer);
    append(buf, end, b"\n")
}

// Writes the line of a command that answered so, and whose read gave this first byte; tells its length.
pub fn print(buf: &mut [u8], command: Command, answer: Answer, first: u8) -> usize
    requires { length buf.old ≡ 80 }
    ensures { (take result buf.new ≡ line_of command answer first) × (result ≤ 80) }
{
    match command {
        Command::Write { line, byte: _ } => print_write(buf, line, answer),
        Command::Read { line } => print_read(buf, line, answer, first),
        Command::Recover => print_recover(buf, answer),
        Command::Allow { n: _ } => 0,
        Command::Unknown => append(buf, 0, b"?\n"),
    }
}

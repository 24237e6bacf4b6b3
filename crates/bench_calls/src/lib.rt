// The calls that the bench program makes: a command run on the module, and the line that it prints.
#![tactic(auto)]

ghost use Rattle.std.specs.Prelude.{◌≡◌, ◌≤◌, length, take};
ghost use Rattle.commands.specs.declared.Command.TheVariants.{Write, Read, Recover};
ghost use Rattle.bench_session.specs.Session.{ran_to, ran as ran_of, told_to, told};
ghost use Rattle.lent.specs.Lent.{module_of, Same};

use answer::Answer;
use bench_session::settle;
use commands::Command;
use lent::Lent;

// What a call answered, and the first byte that it read.
#[derive(Drop)]
struct Outcome {
    answer: Answer,
    first: u8,
}

fn call_write(m: &mut Lent<'_>, line: u64, byte: u8, allowance: u64) -> Outcome
    ensures ran { ran_to result.answer result.first m.new.array.now m.new.control.now m.new.cache.now
        ≡ ran_of m.old.keys.now (Write line byte) allowance
        (module_of m.old) }
    ensures same { Same m.old m.new }
{
    let text = [byte; 64];
    let answer = write::write(m.keys, m.control, m.array, m.cache, line, &text, allowance);
    Outcome { answer, first: 0 }
}

fn call_read(m: &mut Lent<'_>, line: u64, allowance: u64) -> Outcome
    ensures ran { ran_to result.answer result.first m.new.array.now m.new.control.now m.new.cache.now
        ≡ ran_of m.old.keys.now (Read line) allowance (module_of m.old) }
    ensures same { Same m.old m.new }
{
    let mut out = [0u8; 64];
    let answer = read::read(
        m.keys, m.control, m.array, m.cache, line, &mut out, allowance,
    );
    Outcome {
        answer,
        first: out[0],
    }
}

fn call_recover(m: &mut Lent<'_>, allowance: u64) -> Outcome
    ensures ran { ran_to result.answer result.first m.new.array.now m.new.control.now m.new.cache.now
        ≡ ran_of m.old.keys.now Recover allowance (module_of m.old) }
    ensures same { Same m.old m.new }
{
    let answer = recovery::recover(m.keys, m.control, m.array, m.cache, allowance);
    Outcome { answer, first: 0 }
}

// Makes the call of a command.
fn call(m: &mut Lent<'_>, command: Command, allowance: u64) -> Outcome
    ensures ran { ran_to result.answer result.first m.new.array.now m.new.control.now m.new.cache.now
        ≡ ran_of m.old.keys.now command allowance (module_of m.old) }
    ensures same { Same m.old m.new }
{
    match command {
        Command::Write { line, byte } => { call_write(m, line, byte, allowance) }
        Command::Read { line } => call_read(m, line, allowance),
        Command::Recover => call_recover(m, allowance),
        Command::Allow { n: _ } => Outcome {
            answer: Answer::Done { stores: 0, sum: 0 },
            first: 0,
        },
        Command::Unknown => Outcome {
            answer: Answer::Done { stores: 0, sum: 0 },
            first: 0,
        },
    }
}

// Runs a command and writes the line that it prints; tells the length of the line.
pub fn run(m: &mut Lent<'_>, command: Command, allowance: u64, line: &mut [u8]) -> usize
    requires { length line.old ≡ 80 }
    ensures line_after { told_to m.new.array.now m.new.control.now m.new.cache.now (take result line.new)
        ≡ told m.old.keys.now command allowance (module_of m.old) }
    ensures same { Same m.old m.new }
    ensures upper_bound { result ≤ 80 }
{
    let outcome = call(m, command, allowance);
    let answer = outcome.answer;
    settle(m.cache, answer);
    printing::print(line, command, answer, outcome.first)
}

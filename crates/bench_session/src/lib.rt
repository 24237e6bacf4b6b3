// What the bench program keeps from one command to the next, and whether its input has a last line.
#![tactic(auto)]

ghost use Rattle.std.specs.Prelude.{◌≡◌};
ghost use Rattle.bench_session.specs.Session.{settled, allowance_after, has_line};

use answer::Answer;
use commands::{Command, Parser};

// A cut zeroes the cache.
pub fn settle(cache: &mut [u8], answer: Answer)
    ensures { cache.new ≡ settled answer cache.old }
{
    if let Answer::Cut { stores: _ } = answer {
        let n = cache.len();
        copying::zero(cache, 0, n);
    }
}

// The allowance of the next call.
pub fn allowance_after(command: Command, allowance: u64) -> u64
    ensures { result ≡ allowance_after command allowance }
{
    match command {
        Command::Write { line: _, byte: _ } => u64::MAX,
        Command::Read { line: _ } => u64::MAX,
        Command::Recover => u64::MAX,
        Command::Allow { n } => n,
        Command::Unknown => allowance,
    }
}

// Whether a last line is there.
pub fn has_line(parser: Parser) -> bool
    ensures { result ≡ has_line parser }
{
    match parser {
        Parser::Start => false,
        Parser::Letter { letter: _ } => true,
        Parser::First {
            letter: _,
            number: _,
        } => true,
        Parser::Second {
            letter: _,
            first: _,
            number: _,
        } => true,
        Parser::Other => true,
    }
}

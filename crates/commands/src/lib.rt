// The bench program's commands: their language, and the command of a line that has been parsed.
#![tactic(auto)]

ghost use Rattle.std.specs.Prelude.{◌≡◌};
ghost use Rattle.commands.specs.Language.{given};
ghost use Rattle.commands.specs.Machine.{no_number, one_number, two_numbers, found};

use decimal::Number;

#[derive(Clone, Copy)]
pub enum Command {
    Write { line: u64, byte: u8 },
    Read { line: u64 },
    Recover,
    Allow { n: u64 },
    Unknown,
}

// What is kept of a line so far: nothing, its letter, the number of its first and of its second part, or that it is no command.
#[derive(Clone, Copy)]
pub enum Parser {
    Start,
    Letter {
        letter: u8,
    },
    First {
        letter: u8,
        number: Number,
    },
    Second {
        letter: u8,
        first: u64,
        number: Number,
    },
    Other,
}

fn no_number(letter: u8) -> Command
    ensures { result ≡ no_number letter }
{
    if letter == b'p' {
        return Command::Recover;
    }
    Command::Unknown
}

fn one_number(letter: u8, n: u64) -> Command
    ensures { result ≡ one_number letter n }
{
    if letter == b'r' {
        return Command::Read { line: n };
    }
    if letter == b'k' {
        return Command::Allow { n };
    }
    Command::Unknown
}

fn two_numbers(letter: u8, n: u64, b: u64) -> Command
    ensures { result ≡ two_numbers letter n b }
{
    if letter != b'w' {
        return Command::Unknown;
    }
    if b <= 255 {
        return Command::Write {
            line: n,
            byte: b as u8,
        };
    }
    Command::Unknown
}

fn end_first(letter: u8, number: Number) -> Command
    ensures { result ≡ given number (one_number letter) }
{
    match number {
        Number::Empty => Command::Unknown,
        Number::Value(n) => one_number(letter, n),
        Number::Bad => Command::Unknown,
    }
}

fn end_second(letter: u8, first: u64, number: Number) -> Command
    ensures { result ≡ given number (two_numbers letter first) }
{
    match number {
        Number::Empty => Command::Unknown,
        Number::Value(b) => two_numbers(letter, first, b),
        Number::Bad => Command::Unknown,
    }
}

// The command at the end of the line.
pub fn finish(parser: Parser) -> Command
    ensures { result ≡ found parser }
{
    match parser {
        Parser::Start => Command::Unknown,
        Parser::Letter { letter } => no_number(letter),
        Parser::First { letter, number } => end_first(letter, number),
        Parser::Second {
            letter,
            first,
            number,
        } => end_second(letter, first, number),
        Parser::Other => Command::Unknown,
    }
}

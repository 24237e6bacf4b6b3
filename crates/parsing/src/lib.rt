// The parser of the bench program's commands: it takes a line byte by byte.
#![tactic(auto)]

ghost use Rattle.std.specs.Prelude.{◌≡◌};
ghost use Rattle.commands.specs.Machine.{after_byte, second_part, after_space, next};

use commands::Parser;
use decimal::{Number, with_digit};

fn after_byte(parser: Parser, b: u8) -> Parser
    ensures { result ≡ after_byte parser b }
{
    match parser {
        Parser::Start => Parser::Letter { letter: b },
        Parser::Letter { letter: _ } => Parser::Other,
        Parser::First { letter, number } => Parser::First {
            letter,
            number: with_digit(number, b),
        },
        Parser::Second {
            letter,
            first,
            number,
        } => Parser::Second {
            letter,
            first,
            number: with_digit(number, b),
        },
        Parser::Other => Parser::Other,
    }
}

fn second_part(letter: u8, number: Number) -> Parser
    ensures { result ≡ second_part letter number }
{
    match number {
        Number::Empty => Parser::Other,
        Number::Value(n) => Parser::Second {
            letter,
            first: n,
            number: Number::Empty,
        },
        Number::Bad => Parser::Other,
    }
}

fn after_space(parser: Parser) -> Parser
    ensures { result ≡ after_space parser }
{
    match parser {
        Parser::Start => Parser::Other,
        Parser::Letter { letter } => Parser::First {
            letter,
            number: Number::Empty,
        },
        Parser::First { letter, number } => second_part(letter, number),
        Parser::Second {
            letter: _,
            first: _,
            number: _,
        } => Parser::Other,
        Parser::Other => Parser::Other,
    }
}

// The parser after one byte more of its line.
pub fn step(parser: Parser, b: u8) -> Parser
    ensures { result ≡ next parser b }
{
    if b == b' ' {
        after_space(parser)
    } else {
        after_byte(parser, b)
    }
}

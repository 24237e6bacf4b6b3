// The bench program: formats a module of depth 1 and family 0, runs the commands of its standard input on it, and prints a line for each.
#![tactic(auto)]

ghost use Rattle.std.specs.Prelude.{◌≡◌, unwrap_or};
ghost use Rattle.bench_session.specs.Session.{line_ended, byte_taken, bytes_taken, Took, Served};
ghost use Rattle.lent.specs.Lent.{module_of, Same};
ghost use Rattle.bench_program.specs.State.{state_in};

use bench_calls::run;
use bench_session::{allowance_after, has_line};
use commands::Parser;
use lent::Lent;
use std::io::Read;

// What is kept between two bytes of the input.
#[derive(Clone, Copy)]
struct Session {
    parser: Parser,
    allowance: u64,
}

// Runs the command of a line that has ended, and prints; a line that cannot be printed is passed over.
fn end_line(rt: &impl Print, m: &mut Lent<'_>, session: Session) -> Session
    ensures state { state_in result m.new
        ≡ line_ended m.old.keys.now (state_in session m.old) }
    ensures same { Same m.old m.new }
{
    let parser = session.parser;
    let command = commands::finish(parser);
    let mut line = [0u8; 80];
    let n = run(m, command, session.allowance, &mut line);
    let _ = rt.write_all(&line[..n]);
    Session {
        parser: Parser::Start,
        allowance: allowance_after(command, session.allowance),
    }
}

fn take_byte(rt: &impl Print, m: &mut Lent<'_>, session: Session, b: u8) -> Session
    ensures state { state_in result m.new
        ≡ byte_taken m.old.keys.now (state_in session m.old) b }
    ensures same { Same m.old m.new }
{
    if b == b'\n' {
        return end_line(rt, m, session);
    }
    let parser = session.parser;
    Session {
        parser: parsing::step(parser, b),
        allowance: session.allowance,
    }
}

// Takes a part of the input.
fn take_bytes(rt: &impl Print, m: &mut Lent<'_>, session: Session, input: &[u8]) -> Session
    ensures state { state_in result m.new
        ≡ bytes_taken m.old.keys.now (state_in session m.old) input.now }
    ensures same { Same m.old m.new }
{
    let mut state = session;
    for b in input {
        state = take_byte(rt, m, state, *b);
    }
    state
}

// One read of the standard input: whatever bytes it gave, they were taken; None where it gave none, at the end or as it failed.
fn read_input(rt: &(impl Input + Print), m: &mut Lent<'_>, session: Session) -> Option<Session>
    ensures took { Took m.old.keys.now (state_in session m.old) (state_in (unwrap_or result session) m.new) }
    ensures same { Same m.old m.new }
{
    let mut input = [0u8; 4096];
    let n = rt.reader().read(&mut input).unwrap_or(0);
    if n == 0 {
        return None;
    }
    Some(take_bytes(rt, m, session, &input[..n]))
}

// Takes the input to its end. A proved loop has to end, so it counts its reads, up to a number that no run comes to.
fn serve(rt: &(impl Input + Print), m: &mut Lent<'_>)
    ensures { Served m.old.keys.now (module_of m.old) (module_of m.new) × Same m.old m.new }
{
    let mut session = Session {
        parser: Parser::Start,
        allowance: u64::MAX,
    };
    for _read in 0..u64::MAX {
        let Some(next) = read_input(rt, m, session) else {
            break;
        };
        session = next;
    }
    let parser = session.parser;
    if has_line(parser) {
        end_line(rt, m, session);
    }
}

fn main(rt: HostRuntime) {
    let keys = b"\x00\x01\x02\x03\x04\x05\x06\x07\x08\x09\x0a\x0b\x0c\x0d\x0e\x0f\
        \x10\x11\x12\x13\x14\x15\x16\x17\x18\x19\x1a\x1b\x1c\x1d\x1e\x1f\
        \x20\x21\x22\x23\x24\x25\x26\x27\x28\x29\x2a\x2b\x2c\x2d\x2e\x2f";
    let mut control = [0u8; 681];
    let mut array = [0u8; 37944];
    let mut cache = [0u8; 438];
    format::format(1, 0, keys, &mut control, &mut array, &mut cache);
    let mut m = Lent {
        keys,
        control: &mut control,
        array: &mut array,
        cache: &mut cache,
    };
    serve(&rt, &mut m);
}

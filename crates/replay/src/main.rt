// The bench replay as a program: standard input to standard output, in constant memory. What it writes comes from `feed` of
// replay_stream and `finish` of replay_state, and is proved there. This crate reads and writes: no contract can say what a system
// call moved.
// A failed read or write ends it at once, with a word on standard error and without bad= or end=, so that an output that was cut
// short is not taken for a whole one. It is also what `main` answers, so the exit status is 1.
// The tables, the line and the state are parameters one by one: as fields of one struct, with these functions as its methods, they took
// a quarter more instructions (a million steps 0.49 s in place of 0.33).
#![tactic(auto)]

ghost use Rattle.std.specs.Prelude.{◌≡◌, ◌≤◌, length};

use replay_state::{State, finish, start};
use replay_stream::piece::feed;
use replay_tables::records;
use std::io;
use std::io::Read;
use std::ops::ControlFlow;

// The bytes of one read, or of one write. A function of its own: a local of this size costs the proof of a function that lends parts of it.
fn buffer() -> [u8; 65536]
    ensures { 65536 ≡ length result }
{
    [0; 65536]
}

// Takes all of a piece, and writes its output whenever the buffer has no more room for it.
fn take(
    rt: &impl Print,
    dist: &mut [u8],
    redist: &mut [u8],
    line: &mut [u8],
    out: &mut [u8],
    s: State,
    piece: &[u8],
) -> io::Result<State>
    requires { 128 ≤ length out.old }
{
    let mut state = s;
    let mut rest = piece;
    while !rest.is_empty() {
        let fed = feed(dist, redist, line, out, state, rest);
        state = fed.state;
        rest = &rest[fed.used..];
        rt.write_all(&out[..state.end])?;
    }
    Ok(state)
}

// Reads once, and takes what came. Breaks where there is no more to read: at the input's end, and after a bad line.
fn turn(
    rt: &impl Print,
    input: &mut impl Read,
    dist: &mut [u8],
    redist: &mut [u8],
    line: &mut [u8],
    s: State,
) -> io::Result<ControlFlow<State, State>> {
    let mut read = buffer();
    let n = input.read(&mut read)?;
    if n == 0 {
        return Ok(ControlFlow::Break(s));
    }
    let mut out = buffer();
    let state = take(rt, dist, redist, line, &mut out, s, &read[..n])?;
    if state.at.over {
        Ok(ControlFlow::Break(state))
    } else {
        Ok(ControlFlow::Continue(state))
    }
}

// The input has ended.
fn close(rt: &(impl Print + Eprint), line: &[u8], s: State) -> io::Result<()> {
    let mut out = [0u8; 4096];
    let Some(n) = finish(&mut out, line, s) else {
        return Ok(());
    };
    let written = rt.write_all(&out[..n]);
    if written.is_err() {
        rt.eprintln("replay: a write failed")?;
    }
    written
}

// Turn after turn, to the input's end. A proved loop has to end, and nothing says that an input does: the count of turns is more
// than any run uses.
fn run(
    rt: &(impl Input + Print + Eprint),
    dist: &mut [u8],
    redist: &mut [u8],
    line: &mut [u8],
) -> io::Result<()> {
    let mut input = rt.reader();
    let mut state = start();
    for _ in 0..u64::MAX {
        match turn(rt, &mut input, dist, redist, line, state) {
            Ok(ControlFlow::Continue(next)) => state = next,
            Ok(ControlFlow::Break(last)) => return close(rt, line, last),
            Err(error) => {
                rt.eprintln("replay: a read or a write failed")?;
                return Err(error);
            }
        }
    }
    Ok(())
}

fn main(rt: HostRuntime) -> io::Result<()> {
    let mut dist = records::<2012>();
    let mut redist = records::<96>();
    let mut line = [0u8; 18];
    run(&rt, &mut dist, &mut redist, &mut line)
}

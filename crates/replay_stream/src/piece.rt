// A piece of a replay's input, byte by byte.
ghost use Rattle.std.specs.Prelude.{◌+◌, ◌≤◌, length};
ghost use Rattle.replay_meaning.specs.Replay.{all_present};
ghost use Rattle.replay_meaning.specs.Stream.{byte_read, within};
ghost use Rattle.replay_state.specs.Held.{held_in, byte_held};
ghost use Rattle.replay_stream.specs.ReachedLive.{live_of, resumed, AfterByte, AfterPiece};

use crate::Fed;
use replay_lines::line::line_read;
use replay_state::{State, prefix, push};

// A byte ends the line, which is then read, or it is kept as the line's next. The lent memory and the state are parameters of their own,
// since `feed` promises its callers so.
fn byte(
    dist: &mut [u8],
    redist: &mut [u8],
    line: &mut [u8],
    out: &mut [u8],
    s: State,
    b: u8,
) -> State
    requires { s.end + 128 ≤ length out.old }
    ensures { AfterByte
        (byte_read (live_of s (all_present dist.old redist.old) line.old out.old) b)
        (byte_held (held_in line.old s.len) b)
        result (all_present dist.new redist.new) line.new out.old s.end out.new }
{
    if b == b'\n' {
        return line_read(dist, redist, out, s, prefix(line, s.len));
    }
    State {
        len: push(line, s.len, b),
        ..s
    }
}

// Takes a piece, byte by byte, while at least 128 bytes of `out` are free. What it writes stands at the start of `out`: what was
// written before has been handed on.
pub fn feed(
    dist: &mut [u8],
    redist: &mut [u8],
    line: &mut [u8],
    out: &mut [u8],
    s: State,
    piece: &[u8],
) -> Fed
    ensures { AfterPiece
        (within (length out.old)
        (resumed s (all_present dist.old redist.old) line.old) piece.now)
        (held_in line.old s.len)
        result.state (all_present dist.new redist.new) line.new
        piece.now result.used out.old out.new }
{
    let mut state = State { end: 0, ..s };
    // Room is judged where it can change: at the start, and behind a line. Judged at each byte it took up to two thirds more time.
    if out.len() < 128 {
        return Fed { state, used: 0 };
    }
    for (used, &b) in piece.iter().enumerate() {
        state = byte(dist, redist, line, out, state, b);
        if b == b'\n' && out.len() - state.end < 128 {
            return Fed {
                state,
                used: used + 1,
            };
        }
    }
    Fed {
        state,
        used: piece.len(),
    }
}

// What a replay keeps from byte to byte, from its start to the text that ends it.
#![tactic(auto)]

ghost use Rattle.std.specs.Prelude.{◌≡◌, take};
ghost use Rattle.replay_meaning.specs.Replay.{ending};
ghost use Rattle.replay_state.specs.Ended.{EndWritten};
ghost use Rattle.replay_state.specs.Held.{start_state, held_in, stored};

use replay_keys::Key;
use replay_meaning::Progress;
use replay_steps::answer::put_ending;
use text::write::Sheet;

// A replay between two bytes. It has come as far as `at` says by its whole lines. The bytes of the line that is not whole yet are the
// first `len` of the buffer that the caller lends for it, of at least 18 bytes. Its output since the last that was handed on is the
// first `end` bytes of the output's buffer: a field, and no Sheet's, since the promise of `feed` speaks of it.
#[derive(Clone, Copy)]
pub struct State {
    pub at: Progress,
    pub len: usize,
    pub end: usize,
}

// Nothing read yet.
#[tactic(auto, unfolding(crate::specs::Held::start_state, replay_meaning::specs::Replay::start_progress))]
pub fn start() -> State
    ensures { result ≡ start_state }
{
    let at = Progress {
        key: Key::Lines,
        values: [0; 10],
        steps: 0,
        over: false,
    };
    State { at, len: 0, end: 0 }
}

// One byte more of the line, where it is kept. Answers how many are kept. The line's buffer and its length are no struct of their own:
// `feed` is lent the buffer to write and `finish` only to read, so a struct would need two forms, and be made anew for each byte.
#[tactic(auto, unfolding(crate::specs::Held::stored))]
pub fn push(line: &mut [u8], len: usize, b: u8) -> usize
    ensures { held_in line.new result ≡ stored (held_in line.old len) b }
{
    if line.len() <= len {
        return len;
    }
    line[len] = b;
    len + 1
}

// The first bytes of a line.
pub fn prefix(line: &[u8], len: usize) -> &[u8]
    ensures { result.now ≡ take len line.now }
{
    &line[..len.min(line.len())]
}

// The input has ended: what is still to be written, at the start of `out`. Answers how many bytes of it are to be written, or None
// where it has no room.
pub fn finish(out: &mut [u8], line: &[u8], s: State) -> Option<usize>
    ensures { EndWritten (ending s.at (take s.len line.now)) out.old result out.new }
{
    if out.len() < 32 {
        return None;
    }
    let mut sheet = Sheet { bytes: out, end: 0 };
    put_ending(&mut sheet, s.at, prefix(line, s.len));
    Some(sheet.end)
}

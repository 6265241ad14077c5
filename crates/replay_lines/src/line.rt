// The parts of a line's work. The record tables are two parameters of each, as `feed` takes them: a `Controller` has a shape too, a step's.
ghost use Rattle.std.specs.Prelude.{◌≡◌, ◌+◌, ◌≤◌, ◌<◌, length};
ghost use Rattle.text.specs.Sheet.{HasRoom};
ghost use Rattle.meaning.specs.Rule.{access as by_access};
ghost use Rattle.meaning.specs.Step.{stepped};
ghost use Rattle.replay_meaning.specs.Run.{shape_of, request_of, completed, good_line, line_read};
ghost use Rattle.replay_meaning.specs.Replay.{all_present};
ghost use Rattle.replay_lines.specs.Reached.{run_of, run_on, Reached, Advanced, BadWritten};

use controller::Controller;
use replay_keys::Key;
use replay_meaning::{MAX_STEPS, Progress};
use replay_state::State;
use replay_steps::answer::{put_bad, put_step};
use replay_steps::request::{request_of, shape_of};
use text::write::Sheet;
use types::Answer;

// The one call of the controller: a step, from the values of its lines. All interrupts are present.
#[tactic(auto, unfolding(replay_meaning::specs::Replay::all_present))]
fn act(dist: &mut [u8], redist: &mut [u8], values: [u32; 10]) -> Answer
    ensures { record { answered = result; tables = all_present dist.new redist.new }
        ≡ stepped (shape_of values) (by_access (request_of values)) (all_present dist.old redist.old) }
{
    let dist_presence = [u32::MAX; 63];
    let redist_presence = [u32::MAX; 3];
    let mut controller = Controller {
        dist,
        redist,
        dist_presence: &dist_presence,
        redist_presence: &redist_presence,
        shape: shape_of(values),
    };
    controller.access(request_of(values))
}

// A whole step: the controller's answer is written.
#[tactic(auto, using(crate::proofs::Reaching::advanced_step))]
fn complete(dist: &mut [u8], redist: &mut [u8], sheet: &mut Sheet, p: Progress) -> Progress
    requires room { HasRoom sheet.old 128 }
    requires steps_bound { p.steps < MAX_STEPS }
    ensures { Advanced (completed (run_on p (all_present dist.old redist.old) sheet.old))
        result (all_present dist.new redist.new) sheet.old sheet.new }
{
    let answer = act(dist, redist, p.values);
    let at = p.counted();
    put_step(sheet, at.steps, answer);
    at
}

// A good line: its value is kept, and a step's last line completes the step.
#[tactic(auto, using(crate::proofs::Reaching::keeping_on), unfolding(replay_meaning::specs::Run::keeping))]
fn good(dist: &mut [u8], redist: &mut [u8], sheet: &mut Sheet, p: Progress, v: u32) -> Progress
    requires room { HasRoom sheet.old 128 }
    requires steps_bound { p.steps < MAX_STEPS }
    ensures { Advanced (good_line (run_on p (all_present dist.old redist.old) sheet.old) v)
        result (all_present dist.new redist.new) sheet.old sheet.new }
{
    let at = p.keeping(v);
    if matches!(p.key, Key::Value) {
        return complete(dist, redist, sheet, at);
    }
    at
}

// A bad line: its number is written, and the replay is over.
fn bad(sheet: &mut Sheet, p: Progress) -> Progress
    requires { HasRoom sheet.old 128 }
    ensures { BadWritten p result sheet.old sheet.new }
{
    put_bad(sheet, p);
    p.stopped()
}

// How far the replay has come with one more line.
#[tactic(auto, using(crate::proofs::Reaching::advancing))]
fn advance(
    dist: &mut [u8],
    redist: &mut [u8],
    sheet: &mut Sheet,
    p: Progress,
    line: &[u8],
) -> Progress
    requires { HasRoom sheet.old 128 }
    ensures { Advanced (line_read (run_on p (all_present dist.old redist.old) sheet.old) line.now)
        result (all_present dist.new redist.new) sheet.old sheet.new }
{
    if p.over {
        return p;
    }
    if MAX_STEPS <= p.steps {
        return bad(sheet, p);
    }
    match p.key.field(line) {
        Some(v) => good(dist, redist, sheet, p, v),
        None => bad(sheet, p),
    }
}

// What one line, without its end, does.
pub fn line_read(dist: &mut [u8], redist: &mut [u8], out: &mut [u8], s: State, line: &[u8]) -> State
    requires { s.end + 128 ≤ length out.old }
    ensures { Reached (line_read (run_of s.at (all_present dist.old redist.old) out.old s.end) line.now)
        result (all_present dist.new redist.new) out.old s.end out.new }
{
    let mut sheet = Sheet {
        bytes: out,
        end: s.end,
    };
    let at = advance(dist, redist, &mut sheet, s.at, line);
    State {
        at,
        len: 0,
        end: sheet.end,
    }
}

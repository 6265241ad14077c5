// What is written: a step's three lines, and the line that ends a replay.
ghost use Rattle.text.specs.Sheet.{HasRoom, Writes};
ghost use Rattle.replay_meaning.specs.Run.{bad_text, step_text};
ghost use Rattle.replay_meaning.specs.Replay.{ending};

use answers::{status_of, value_of};
use replay_keys::Key;
use replay_meaning::Progress;
use text::write::Sheet;
use types::Answer;

// step=, status=, value=
#[tactic(auto, using(text::proofs::Numbers::length_numbered))]
pub fn put_step(sheet: &mut Sheet, n: u32, a: Answer)
    requires { HasRoom sheet.old 128 }
    ensures { Writes sheet.old (step_text n a) sheet.new }
{
    let status = status_of(a);
    let value = value_of(a);
    sheet.put_line(b"step=", u64::from(n));
    sheet.put_line(b"status=", u64::from(status));
    sheet.put_line(b"value=", u64::from(value));
}

// bad=
#[tactic(auto, unfolding(replay_meaning::specs::Run::bad_text))]
pub fn put_bad(sheet: &mut Sheet, p: Progress)
    requires { HasRoom sheet.old 32 }
    ensures { Writes sheet.old (bad_text p) sheet.new }
{
    sheet.put_line(b"bad=", p.line_number());
}

// What ends a replay: nothing once a bad line was read, end= between two steps, and bad= elsewhere.
#[tactic(auto, using(text::proofs::Puts::writes_none), unfolding(replay_meaning::specs::Replay::ending))]
pub fn put_ending(sheet: &mut Sheet, p: Progress, rest: &[u8])
    requires { HasRoom sheet.old 32 }
    ensures { Writes sheet.old (ending p rest.now) sheet.new }
{
    if p.over {
        return;
    }
    if matches!(p.key, Key::Op) && rest.is_empty() {
        sheet.put_line(b"end=", u64::from(p.steps));
    } else {
        put_bad(sheet, p);
    }
}

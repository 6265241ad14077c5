// What the events answer of a record and do to it: wire, activate, deactivate. Functions and no methods: `Record` is a type of `record`,
// and each kind of change has a crate of its own.
#![tactic(auto)]

ghost use Rattle.std.specs.Prelude.{◌≡◌, cond};
ghost use Rattle.types.specs.declared.Shape.{Shape};
ghost use Rattle.meaning.specs.Rule.{sees_by, ready, event_answer, happened};
ghost use Rattle.record.specs.Known.{Becomes, OfEach};

use record::Record;
use types::{Answer, Bit, Event, Refusal};

fn sees_by(r: Record, event: Event) -> bool
    ensures { result ≡ sees_by event r.cell }
{
    match event {
        Event::Wire(_) => true,
        Event::Activate(side) | Event::Deactivate(side) => r.seen_by(side),
    }
}

fn done_if(held: bool, why: Refusal) -> Answer
    ensures { result ≡ cond held (Ok 0) (Err why) }
{
    held.then_some(0).ok_or(why)
}

// A wire is no SGI's; what is activated is enabled, pending and not active; what is deactivated is active.
#[tactic(auto, unfolding(meaning::specs::Cell::get))]
fn ready(r: Record, event: Event) -> Answer
    ensures { (s : Shape) → OfEach r (λ i c. result ≡ ready s event i c) }
{
    match event {
        Event::Wire(_) => done_if(!r.is_soft(), Refusal::SgiWire),
        Event::Activate(_) => done_if(
            r.has(Bit::Enabled) && r.is_pending() && !r.has(Bit::Active),
            Refusal::State,
        ),
        Event::Deactivate(_) => done_if(r.has(Bit::Active), Refusal::State),
    }
}

// What the event is answered: 7, 8 or 9, the first that applies; otherwise done.
#[tactic(auto, unfolding(meaning::specs::Rule::event_answer))]
pub fn answer_to(r: Record, event: Event) -> Answer
    ensures { (s : Shape) → OfEach r (λ i c. result ≡ event_answer s event i c) }
{
    if r.is_implemented() && sees_by(r, event) {
        ready(r, event)
    } else {
        Err(Refusal::Intid)
    }
}

// The level is stored; a rise on an edge interrupt sets the latch.
#[tactic(auto, unfolding(meaning::specs::Rule::happened, meaning::specs::Cell::get))]
fn wired(r: Record, level: bool) -> Record
    ensures { (s : Shape) → Becomes r result (happened s (Event.Wire level)) }
{
    let rise = level && !r.has(Bit::Wire);
    let latch = r.is_edge() && rise || r.has(Bit::Latch);
    r.put(Bit::Wire, level).put(Bit::Latch, latch)
}

// The record after an event that is done. Activation clears the latch; wire and message level stay.
#[tactic(auto, unfolding(meaning::specs::Rule::happened))]
pub fn happened(r: Record, event: Event) -> Record
    ensures { (s : Shape) → Becomes r result (happened s event) }
{
    match event {
        Event::Wire(level) => wired(r, level),
        Event::Activate(_) => r.put(Bit::Latch, false).put(Bit::Active, true),
        Event::Deactivate(_) => r.put(Bit::Active, false),
    }
}

// What the message registers do to the record that a message names: an SPI's or extended SPI's, so no SGI's. Functions and no methods:
// `Record` is a type of `record`, and each kind of change has a crate of its own.
#![tactic(auto)]

ghost use Rattle.std.specs.Prelude.{◌≡◌};
ghost use Rattle.types.specs.declared.Shape.{Shape};
ghost use Rattle.meaning.specs.Interrupt.{Interrupt};
ghost use Rattle.meaning.specs.Rule.{secure_only, sets, may_send, sent};
ghost use Rattle.record.specs.Known.{Becomes};
ghost use Rattle.record_messages.specs.Delivered.{delivered};

use record::Record;
use types::{Bit, Message, Side};

// This and `sets` are a `matches!` each and stay functions: each is a definition of the meaning by its own name.
fn secure_only(g: Message) -> bool
    ensures { result ≡ secure_only g }
{
    matches!(g, Message::SetspiSr | Message::ClrspiSr)
}

fn sets(g: Message) -> bool
    ensures { result ≡ sets g }
{
    matches!(g, Message::SetspiNsr | Message::SetspiSr)
}

// Whether a side may use the message register on the interrupt.
#[tactic(auto, unfolding(meaning::specs::Rule::may_send))]
fn may_send(r: Record, side: Side, g: Message) -> bool
    ensures { (i : Interrupt) → result ≡ may_send side g i r.cell }
{
    match side {
        Side::Secure => true,
        Side::NonSecure => !secure_only(g) && r.seen_by(Side::NonSecure),
    }
}

// SETSPI does nothing to a pending interrupt. Else the latch of an edge interrupt, the message level of another, is set or cleared.
#[tactic(auto, unfolding(meaning::specs::Rule::sent))]
fn sent(r: Record, g: Message) -> Record
    ensures { (s : Shape) → Becomes r result (sent s g) }
{
    let on = sets(g);
    if on && r.is_pending() {
        r
    } else if r.is_edge() {
        r.put(Bit::Latch, on)
    } else {
        r.put(Bit::MessageLevel, on)
    }
}

// The same behind the gate: a missing interrupt, and one that the side may not name, is unchanged.
#[tactic(auto, unfolding(crate::specs::Delivered::delivered))]
pub fn deliver(r: Record, side: Side, g: Message) -> Record
    ensures { (s : Shape) → Becomes r result (delivered s side g) }
{
    if r.is_implemented() && may_send(r, side, g) {
        sent(r, g)
    } else {
        r
    }
}

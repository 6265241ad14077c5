// What a register write does to a record. `d` is the digit written for it. Functions and no methods: `Record` is a type of `record`, and
// each kind of change has a crate of its own.
#![tactic(auto)]

ghost use Rattle.std.specs.Prelude.{◌≡◌};
ghost use Rattle.types.specs.declared.Shape.{Shape};
ghost use Rattle.meaning.specs.Rule.{bit_of, switched, configured, update};
ghost use Rattle.record.specs.Known.{Becomes};
ghost use Rattle.record_writes.specs.Touched.{touched};

use record::{Record, guarded};
use types::{Bit, Kind, Side, Switch};

// No From: both enums are of `types`, where no rule stands.
fn bit_of(switch: Switch) -> Bit
    ensures { result ≡ bit_of switch }
{
    match switch {
        Switch::Enable => Bit::Enabled,
        Switch::Pending => Bit::Latch,
        Switch::Active => Bit::Active,
    }
}

// A written 1 sets the bit (on), or clears it; a 0 does nothing.
#[tactic(auto, unfolding(meaning::specs::Rule::switched))]
fn switched(r: Record, on: bool, bit: Bit, d: u32) -> Record
    ensures { result ≡ record r { cell = switched on bit d r.cell } }
{
    if d == 1 { r.put(bit, on) } else { r }
}

// An ICFGR field: those of SGIs and of enabled interrupts ignore writes. A change of trigger also clears latch and message level.
#[tactic(auto, unfolding(meaning::specs::Rule::configured, meaning::specs::Rule::fixed_field, meaning::specs::Cell::get))]
fn configured(r: Record, d: u32) -> Record
    ensures { Becomes r result (configured d) }
{
    let edge = 2 <= d;
    if r.is_soft() || r.has(Bit::Enabled) || r.has(Bit::Edge) == edge {
        r
    } else {
        r.put(Bit::MessageLevel, false)
            .put(Bit::Latch, false)
            .put(Bit::Edge, edge)
    }
}

#[tactic(auto, unfolding(meaning::specs::Rule::update))]
fn updated(r: Record, kind: Kind, d: u32) -> Record
    ensures { (s : Shape) (side : Side) → Becomes r result (update s side kind d) }
{
    match kind {
        Kind::Switched(on, switch) => switched(r, on, bit_of(switch), d),
        Kind::Guarded(guard) => r.put(guarded(guard), d == 1),
        Kind::Trigger => configured(r, d),
    }
}

// The same behind the gate: a missing interrupt, and one that the side may not touch, is unchanged.
#[tactic(auto, unfolding(crate::specs::Touched::touched))]
pub fn touched(r: Record, side: Side, kind: Kind, d: u32) -> Record
    ensures { (s : Shape) → Becomes r result (touched s side kind d) }
{
    if r.reached_by(side, kind) {
        updated(r, kind, d)
    } else {
        r
    }
}

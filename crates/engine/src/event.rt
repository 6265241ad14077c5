// The events on one interrupt of the bank: wire, activate, deactivate.
ghost use Rattle.std.specs.Prelude.{◌≡◌, ◌<◌, ltb, length, get_or, set};
ghost use Rattle.types.specs.declared.Shape.{Shape as Form};
ghost use Rattle.meaning.specs.Interrupt.{Interrupt, sgi};
ghost use Rattle.meaning.specs.Cell.{decode, encode};
ghost use Rattle.meaning.specs.Layout.{slots};
ghost use Rattle.meaning.specs.Rule.{event_answer};
ghost use Rattle.table_spans.specs.Bank.{bank_span};
ghost use Rattle.engine.specs.Bank.{eventful, Happened};

use record::Record;
use record_events::{answer_to, happened};
use table_spans::{Bank, Slot};
use types::{Answer, Event, Refusal};

// The event at a slot; a refused one stores nothing.
#[tactic(auto, using(crate::proofs::Uses::refused_same), unfolding(crate::specs::Bank::eventful))]
fn happen_at(records: &mut [u8], slot: Slot, soft: bool, event: Event) -> Answer
    requires { slot.at < length records.old }
    ensures { (s : Form) (i : Interrupt) → sgi i ≡ soft
        → (result ≡ event_answer s event i (decode slot.implemented (get_or records.old slot.at 0)))
        × (records.new
        ≡ set records.old slot.at (encode (eventful s event i (decode slot.implemented (get_or records.old slot.at 0))))) }
{
    let Slot { at, implemented } = slot;
    let record = Record::new(records[at], implemented, soft);
    let value = answer_to(record, event)?;
    records[at] = happened(record, event).byte();
    Ok(value)
}

// The event on the INTID m of the bank; refusal 7 where it has no such interrupt. Inlined always (see `Controller::event`).
#[inline(always)]
pub fn happen(records: &mut [u8], bank: Bank, m: u32, event: Event) -> Answer
    requires { length records.old ≡ slots bank.frame }
    ensures { (i : Interrupt) → sgi i ≡ ltb m 16
        → Happened bank.entry.shape event i (bank_span bank.entry m 1) records.old result records.new }
{
    let slot = bank.slot_of(m).ok_or(Refusal::Intid)?;
    happen_at(records, slot, m < 16, event)
}

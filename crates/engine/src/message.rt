// A write to a message register, which names one SPI or extended SPI of the Distributor's bank.
ghost use Rattle.std.specs.Prelude.{◌≡◌, false, ◌%◌, length};
ghost use Rattle.meaning.specs.Interrupt.{Interrupt, sgi};
ghost use Rattle.meaning.specs.Layout.{slots};
ghost use Rattle.table_spans.specs.Bank.{bank_span};
ghost use Rattle.engine.specs.Bank.{sent_in};

use record::Record;
use record_messages::deliver;
use table_spans::{Bank, Slot};
use types::{Message, Side};

#[tactic(auto, using(crate::proofs::Uses::at_slot, crate::proofs::Uses::at_none), unfolding(crate::specs::Bank::sent_in))]
pub fn send(records: &mut [u8], bank: Bank, side: Side, message: Message, value: u32)
    requires { length records.old ≡ slots bank.frame }
    ensures { (i : Interrupt) → sgi i ≡ false
        → records.new
        ≡ sent_in bank.entry.shape side message i (bank_span bank.entry (value % 8192) 1) records.old }
{
    if !bank.shape.mbis {
        return;
    }
    if let Some(Slot { at, implemented }) = bank.slot_of(value % 8192) {
        let record = Record::new(records[at], implemented, false);
        records[at] = deliver(record, side, message).byte();
    }
}

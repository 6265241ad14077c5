// A register word: the part of the bank that holds its records is lent on to the loops.
ghost use Rattle.std.specs.Prelude.{◌≡◌, [], ◌-◌, ◌≤◌, length, take, drop};
ghost use Rattle.meaning.specs.Layout.{lent, slots, records_of};
ghost use Rattle.register_families.specs.Fits.{Fits};
ghost use Rattle.table_spans.specs.Bank.{bank_span};
ghost use Rattle.engine.specs.Bank.{OfWindow, word_of, read_in, written_in};

use table_spans::{Bank, Span};
use table_words::{Word, gather, store};
use types::{Frame, Side, Window};

// The records of a span, as a part of whichever table holds them. Document 01 names this form.
fn part<'a>(dist: &'a [u8], redist: &'a [u8], frame: Frame, span: Span) -> &'a [u8]
    requires { (span.start ≤ span.end) × (span.end ≤ length (records_of frame (lent dist.now redist.now [] []))) }
    ensures { result.now
        ≡ take (span.end - span.start) (drop span.start (records_of frame (lent dist.now redist.now [] []))) }
{
    match frame {
        Frame::Dist => &dist[span.start..span.end],
        Frame::Redist => &redist[span.start..span.end],
    }
}

// The word that a span of the window's interrupts is a part of.
fn word_of(side: Side, window: Window, span: Span) -> Word
    ensures { result ≡ word_of side window span }
{
    Word::new(side, window.family, window.first, span.implemented)
}

// What a read of a register word shows.
pub fn read_word<'a>(
    dist: &'a [u8],
    redist: &'a [u8],
    bank: Bank,
    side: Side,
    window: Window,
) -> u32
    requires slots_lent { length (records_of bank.frame (lent dist.now redist.now [] [])) ≡ slots bank.frame }
    requires fits { Fits window }
    ensures { OfWindow window (λ at. result
        ≡ read_in bank.entry.shape at side window (bank_span bank.entry window.first window.count)
        (records_of bank.entry.frame (lent dist.now redist.now [] []))) }
{
    let span = bank.span_of(window.first, window.count);
    gather(
        part(dist, redist, bank.frame, span),
        word_of(side, window, span),
    )
}

// What a write to a register word leaves in its bank.
pub fn write_word(records: &mut [u8], bank: Bank, side: Side, window: Window, value: u32)
    requires slots_lent { length records.old ≡ slots bank.frame }
    requires fits { Fits window }
    ensures { OfWindow window (λ at. records.new
        ≡ written_in bank.entry.shape at side window value (bank_span bank.entry window.first window.count) records.old) }
{
    let span = bank.span_of(window.first, window.count);
    store(
        &mut records[span.start..span.end],
        word_of(side, window, span),
        value,
    );
}

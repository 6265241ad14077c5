// Where a bank keeps INTIDs: their slots, and which of them are implemented. A bank is the records and the presence words of one frame;
// a `Bank` is all of it but the records, which are lent beside it, to be read or written.
#![tactic(auto)]

ghost use Rattle.std.specs.Prelude.{◌≡◌, true, ◌+◌, ◌%◌, ◌≤◌, ◌<◌, length, IfSome};
ghost use Rattle.meaning.specs.Interrupt.{between};
ghost use Rattle.meaning.specs.Layout.{slots, shape_fits, presence_words};

use types::{Frame, Shape};

// What is known of a bank beside its records: its frame, the shape, and the frame's presence words.
#[derive(Clone, Copy)]
pub struct Bank<'a> {
    pub frame: Frame,
    pub shape: Shape,
    pub presence: &'a [u32],
    pub ghost fits: { shape_fits shape ≡ true },
    pub ghost words_lent: { length presence.now ≡ presence_words frame },
}

// INTIDs from `low` up to `high` that a bank keeps one after another, from slot `slot` and presence word `word` on.
#[derive(Clone, Copy)]
struct Range {
    low: u32,
    high: u32,
    slot: u32,
    word: u32,
}

// Slots from `start` up to `end`, and (bit x) whether slot start + x holds an implemented interrupt.
#[derive(Clone, Copy)]
pub struct Span {
    pub start: usize,
    pub end: usize,
    pub implemented: u32,
}

// One slot, and whether it holds an implemented interrupt. A flag and no Option: a record with no interrupt is still asked and answered.
#[derive(Clone, Copy)]
pub struct Slot {
    pub at: usize,
    pub implemented: bool,
}

impl Range {
    fn contains(self, m: u32) -> bool
        ensures { result ≡ between self.low self.high m }
    {
        (self.low..self.high).contains(&m)
    }
}

impl Span {
    ghost use Rattle.table_spans.specs.Span.{first_of};

    // The first slot, if there is one.
    #[tactic(auto, unfolding(crate::specs::Span::first_of))]
    fn first(self) -> Option<Slot>
        ensures { result ≡ first_of self }
    {
        let slot = Slot {
            at: self.start,
            implemented: self.implemented % 2 == 1,
        };
        (self.start < self.end).then_some(slot)
    }
}

impl Bank<'_> {
    ghost use Rattle.table_spans.specs.Span.{Inside, range_of, span_at, Bounded, first_of};
    ghost use Rattle.table_spans.specs.Bank.{bank_span};

    // The only range of the bank that can hold the INTID m: SPIs or extended SPIs; SGIs and PPIs or extended PPIs.
    #[tactic(auto, unfolding(crate::specs::Span::range_of, meaning::specs::Layout::shape_fits))]
    fn range_of(self, m: u32) -> Range
        ensures { result ≡ range_of self.entry.shape self.entry.frame m }
    {
        match self.frame {
            Frame::Dist if m < 1020 => Range {
                low: 32,
                high: (32 * self.shape.lines + 32).min(1020),
                slot: 0,
                word: 0,
            },
            Frame::Dist => Range {
                low: 4096,
                high: 4096 + 32 * self.shape.espi,
                slot: 988,
                word: 31,
            },
            Frame::Redist if m < 32 => Range {
                low: 0,
                high: 32,
                slot: 0,
                word: 0,
            },
            Frame::Redist => Range {
                low: 1056,
                high: 1056 + 32 * self.shape.eppi,
                slot: 32,
                word: 1,
            },
        }
    }

    // `count` INTIDs from the x-th of a range on, no more than the range has.
    #[tactic(auto, unfolding(crate::specs::Span::span_at))]
    fn span_at(self, range: Range, x: u32, count: u32) -> Span
        requires { Inside self.presence.now range x count }
        ensures { result ≡ span_at self.entry.presence.now range x count }
    {
        let start = range.slot + x;
        let end = range.slot + (x + count).min(range.high - range.low);
        let word = range.word + x / 32;
        Span {
            start: start as usize,
            end: end as usize,
            implemented: self.presence[word as usize] >> (x % 32),
        }
    }

    // The slots of `count` INTIDs from `first` on, which lie in one presence word: those that the shape has. Where it has none the span is
    // empty and no None: an empty span reads as 0 and stores nothing, so that an Option would only add a branch to each caller.
    #[tactic(auto, unfolding(crate::specs::Span::span_of, crate::specs::Span::span_in, crate::specs::Span::nothing))]
    pub fn span_of(self, first: u32, count: u32) -> Span
        requires count_bound { count ≤ 32 }
        ensures span { result ≡ bank_span self.entry first count }
        ensures bounds { first % 32 + count ≤ 32 → Bounded self.entry.frame count result }
    {
        let range = self.range_of(first);
        if range.contains(first) {
            return self.span_at(range, first - range.low, count);
        }
        Span {
            start: 0,
            end: 0,
            implemented: 0,
        }
    }

    // The slot of one INTID, if the bank has it.
    pub fn slot_of(self, m: u32) -> Option<Slot>
        ensures first { result ≡ first_of (bank_span self.entry m 1) }
        ensures inside { IfSome result (λ k. k.at < slots self.entry.frame) }
    {
        self.span_of(m, 1).first()
    }
}

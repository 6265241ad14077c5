// The loops over the records behind one register word: 28 or 32 of them, 12 or 16 behind an ICFGR word.
// The part of the table that holds them is lent; nothing is copied, and no record outside the part is looked at. A read visits every
// record, and so does a write where a 0 acts; a set or clear write visits those of its ones.
#![tactic(auto)]

ghost use Rattle.std.specs.Prelude.{◌≡◌, ◌+◌, ◌*◌, ◌%◌, ◌^◌, ltb};
ghost use Rattle.lists.specs.Word.{bit_at};
ghost use Rattle.meaning.specs.Cell.{decode};
ghost use Rattle.meaning.specs.Registers.{row_of, kind_of, bits_of};
ghost use Rattle.table_words.specs.Part.{FitsWord, DigitInside, OfDigit, OfPart, shown_at, gathered, digit_stored, stored_at, stored};

use record::Record;
use record_writes::touched;
use register_families::row_of;
use std::marker::Model;
use types::{Family, Kind, Row, Side, Switch};

// Who accesses which family, the INTID of the part's first record, and (bit x) whether record x is implemented. The family's row goes with
// it: looked up for each record, it made a read two fifths dearer (1872 instructions in place of 1346).
#[derive(Clone, Copy)]
pub struct Word {
    side: Side,
    family: Family,
    row: Row,
    first: u32,
    implemented: u32,
}

impl Model for Word {
    ghost use Rattle.std.specs.Prelude.{◌≡◌};
    ghost use Rattle.std.proofs.Common.{sym, ap};
    ghost use Rattle.types.specs.declared.Row.{Row};
    ghost use Rattle.meaning.specs.Registers.{row_of};
    ghost use Rattle.table_words.specs.Asked.{Asked};

    ghost Value = { Asked };

    ghost view = { λ w. record { side = w.side; family = w.family; first = w.first; implemented = w.implemented } };

    ghost invariant = { λ w. w.row ≡ row_of w.family };

    ghost inverse = { λ v. record {
      side = v.side;
      family = v.family;
      row = row_of v.family;
      first = v.first;
      implemented = v.implemented;
    } };

    ghost inverse_ok = { λ w h. ap (λ (r : Row). record w { row = r }) (sym h) };
}

impl Word {
    pub fn new(side: Side, family: Family, first: u32, implemented: u32) -> Word
        ensures { result ≡ record { side = side; family = family; first = first; implemented = implemented } }
    {
        Word {
            side,
            family,
            row: row_of(family),
            first,
            implemented,
        }
    }

    fn side(self) -> Side
        ensures { result ≡ self.side }
    {
        self.side
    }

    fn row(self) -> Row
        ensures { result ≡ row_of self.family }
    {
        self.row
    }
}

// Digit x of a word, inside it.
#[derive(Clone, Copy)]
struct Digit {
    word: Word,
    x: u32,
    ghost inside: { DigitInside word x },
}

impl Digit {
    // Its record.
    #[tactic(auto, unfolding(lists::specs::Word::bit_at))]
    fn record(self, byte: u8) -> Record
        ensures { result ≡ record { cell = decode (bit_at self.word.implemented self.x) byte; soft = ltb (self.word.first + self.x) 16 } }
    {
        let Digit { word, x } = self;
        Record::new(byte, (word.implemented >> x) % 2 == 1, word.first + x < 16)
    }

    // What the word shows of the record, where it stands in the word.
    #[tactic(auto, unfolding(crate::specs::Part::shown_at))]
    fn shown(self, byte: u8) -> u32
        ensures { OfDigit self.word self.x (λ s at. result
            ≡ (shown_at s at self.word self.x byte * 2 ^ (bits_of self.word.family * self.x)) % 2 ^ 32) }
    {
        let Digit { word, x } = self;
        let row = word.row();
        self.record(byte).visible(word.side(), row.kind) << (row.bits * x)
    }

    // The record after d was written for it.
    fn written(self, kind: Kind, d: u32, byte: u8) -> u8
        ensures { OfDigit self.word self.x (λ s at. result ≡ digit_stored s at self.word kind d self.x byte) }
    {
        let side = self.word.side();
        touched(self.record(byte), side, kind, d).byte()
    }

    // The record after a write of `value` to the word.
    #[tactic(auto, using(crate::proofs::Digits::bits_small, crate::proofs::Digits::modulus, crate::proofs::Digits::modulus_pos))]
    fn stored(self, value: u32, byte: u8) -> u8
        ensures { OfDigit self.word self.x (λ s at. result ≡ stored_at s at self.word value self.x byte) }
    {
        let row = self.word.row();
        let d = (value >> (row.bits * self.x)) % (1 << row.bits);
        self.written(row.kind, d, byte)
    }
}

// What a read of the word shows. Part and word are no struct, here and below: the part is lent for the call alone, shared or to be written,
// so that two structs would say the same of two kinds of loan, and each contract would still name the part by itself.
#[tactic(auto, using(crate::proofs::Digits::part_small, crate::proofs::Digits::inside))]
pub fn gather(part: &[u8], word: Word) -> u32
    requires { FitsWord word part.now }
    ensures { OfPart word part.now (λ s at. result ≡ gathered s at word part.now) }
{
    let mut value = 0;
    for (x, &byte) in part.iter().enumerate() {
        value |= Digit { word, x: x as u32 }.shown(byte);
    }
    value
}

// A set or clear write: from one written 1 to the next, by the count of trailing zeros. Where none remains that count is 32, and no part
// has more records; a 1 past the part's end, and all above it, act on nothing. No index is counted here: a `while` is the form that
// document 01 names for it.
#[tactic(auto, using(crate::proofs::Digits::part_small, crate::proofs::Digits::inside))]
fn jump(part: &mut [u8], word: Word, on: bool, switch: Switch, value: u32)
    requires fits_word { FitsWord word part.old }
    requires family_value { kind_of word.family ≡ Kind.Switched on switch }
    ensures { OfPart word part.old (λ s at. part.new ≡ stored s at word value part.old) }
{
    let mut rest = value;
    let mut x = rest.trailing_zeros();
    while (x as usize) < part.len() {
        let byte = &mut part[x as usize];
        *byte = Digit { word, x }.written(Kind::Switched(on, switch), 1, *byte);
        rest &= !(1 << x);
        x = rest.trailing_zeros();
    }
}

// A write where a 0 acts too: every record. Inlined always, so that each of `store`'s callers has loops of its own: left to the compiler,
// a Non-secure write to IGRPMODR took 594 instructions in place of 342.
#[tactic(auto, using(crate::proofs::Digits::part_small, crate::proofs::Digits::inside))]
#[inline(always)]
fn walk(part: &mut [u8], word: Word, value: u32)
    requires { FitsWord word part.old }
    ensures { OfPart word part.old (λ s at. part.new ≡ stored s at word value part.old) }
{
    for (x, byte) in part.iter_mut().enumerate() {
        *byte = Digit { word, x: x as u32 }.stored(value, *byte);
    }
}

// What a write of `value` to the word leaves.
pub fn store(part: &mut [u8], word: Word, value: u32)
    requires { FitsWord word part.old }
    ensures { OfPart word part.old (λ s at. part.new ≡ stored s at word value part.old) }
{
    match word.row().kind {
        Kind::Switched(on, switch) => jump(part, word, on, switch, value),
        Kind::Guarded(_) | Kind::Trigger => walk(part, word, value),
    }
}

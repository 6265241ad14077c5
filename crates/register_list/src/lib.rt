// The listed registers: the place of the word at an offset of a frame, or refusal 5.
#![tactic(auto)]

ghost use Rattle.std.specs.Prelude.{◌≡◌, ◌%◌};
ghost use Rattle.types.specs.declared.Frame.TheVariants.{Dist};
ghost use Rattle.meaning.specs.Registers.{row_of, families, listed};
ghost use Rattle.register_list.specs.Entry.{extended_from, word_at, redist_word, place_beyond, place_at};

use register_families::{
    Icactiver, Icenabler, Icfgr, Icpendr, Igroupr, Igrpmodr, Isactiver, Isenabler, Ispendr,
    Register, row_of,
};
use register_map::{Entry, entry_at};
use types::{Decoded, Family, Frame, Place, Refusal};

// The family whose extended words begin at an offset. Its arms are constants, so that no row is looked at; a search of the rows would look
// up as many as nine for each access, and no list of the families is kept for it.
#[tactic(auto, unfolding(crate::specs::Entry::extended_from, meaning::specs::Registers::row_of))]
fn extended_from(start: u32) -> Option<Family>
    ensures { result ≡ extended_from start families }
{
    match start {
        Igroupr::EXTENDED => Some(Family::Igroupr),
        Isenabler::EXTENDED => Some(Family::Isenabler),
        Icenabler::EXTENDED => Some(Family::Icenabler),
        Ispendr::EXTENDED => Some(Family::Ispendr),
        Icpendr::EXTENDED => Some(Family::Icpendr),
        Isactiver::EXTENDED => Some(Family::Isactiver),
        Icactiver::EXTENDED => Some(Family::Icactiver),
        Igrpmodr::EXTENDED => Some(Family::Igrpmodr),
        Icfgr::EXTENDED => Some(Family::Icfgr),
        _ => None,
    }
}

// The number of the word at `offset` among words that begin at `from`.
fn word_at(from: u32, offset: u32) -> u32
    ensures { result ≡ word_at from offset }
{
    offset.saturating_sub(from) / 4
}

// A place beyond the map: a family's extended words begin at a multiple of 512 and end before the next.
#[tactic(auto, unfolding(crate::specs::Entry::place_beyond))]
fn extended_place(offset: u32) -> Option<Place>
    ensures { result ≡ place_beyond Dist offset }
{
    let f = extended_from(offset - offset % 512)?;
    let row = row_of(f);
    let n = word_at(row.extended, offset);
    (n < row.extras).then_some(Place::Extended(Frame::Dist, f, n))
}

// A word of the Redistributor: its SGIs and PPIs, its extended PPIs, or no word. An early return and no `then_some`: the product has room
// only below `redist`, and in a closure for `then` its proof did not close.
#[tactic(auto, using(register_families::proofs::Rows::few_digits, register_families::proofs::Rows::few_words))]
fn redist_word(f: Family, offset: u32) -> Option<Place>
    ensures { result ≡ redist_word f (word_at (row_of f).base offset) }
{
    let row = row_of(f);
    let n = word_at(row.base, offset);
    if n >= row.redist {
        return None;
    }
    Some(if row.per * n < 32 {
        Place::Word(Frame::Redist, f, n)
    } else {
        Place::Extended(Frame::Redist, f, n)
    })
}

// The place of the word at an offset, if it has one. The map has the first 4 KiB of both frames; the Redistributor has the first words
// of each family and nothing else.
#[tactic(auto, unfolding(crate::specs::Entry::place_at, crate::specs::Entry::place_in, crate::specs::Entry::place_beyond))]
fn place_at(frame: Frame, offset: u32) -> Option<Place>
    ensures { result ≡ place_at frame offset }
{
    if offset >= 4096 {
        return match frame {
            Frame::Dist => extended_place(offset),
            Frame::Redist => None,
        };
    }
    match (frame, entry_at((offset / 4) as usize)?) {
        (Frame::Dist, Entry::Register(f)) => Some(Place::Word(
            Frame::Dist,
            f,
            word_at(row_of(f).base, offset),
        )),
        (Frame::Dist, Entry::Message(g)) => Some(Place::Message(g)),
        (Frame::Dist, Entry::Typer) => Some(Place::Typer),
        (Frame::Redist, Entry::Register(f)) => redist_word(f, offset),
        (Frame::Redist, Entry::Message(_) | Entry::Typer) => None,
    }
}

// The listed place of the word at an offset that is a multiple of 4.
#[tactic(auto, using(crate::proofs::Agree::agree))]
pub fn listed_at(frame: Frame, offset: u32) -> Decoded
    requires { offset % 4 ≡ 0 }
    ensures { result ≡ listed frame offset }
{
    place_at(frame, offset).ok_or(Refusal::Unlisted)
}

// Where an access goes: the first of refusals 2 to 6 that applies, or a register word. And what such a word stands for.
#![tactic(auto)]

ghost use Rattle.std.specs.Prelude.{◌≡◌, ◌<◌, ◌≤◌};
ghost use Rattle.meaning.specs.Registers.{wide_enough, place_of, target_of};
ghost use Rattle.register_decoder.specs.Digits.{number_of, origin, count_of, digits_from};

use register_families::row_of;
use register_list::listed_at;
use types::{Access, Decoded, Family, Frame, Place, Refusal, Target, Window};

// Width 2 is for the message registers alone, at their own offset.
fn wide_enough(width: u32, low: u32, place: Place) -> bool
    ensures { result ≡ wide_enough width low place }
{
    match place {
        Place::Word(..) | Place::Extended(..) | Place::Typer => width == 4,
        Place::Message(_) => low == 0,
    }
}

// The decoder: refusals 2 to 6 in order, or the place.
#[tactic(auto, unfolding(meaning::specs::Registers::place_of))]
pub fn place_of(request: Access) -> Decoded
    ensures { result ≡ place_of request }
{
    let width = request.width;
    let offset = request.offset;
    if !matches!(width, 2 | 4) {
        return Err(Refusal::Width);
    }
    if offset % width != 0 {
        return Err(Refusal::Alignment);
    }
    if offset > 65535 {
        return Err(Refusal::Offset);
    }
    let low = offset % 4;
    let found = listed_at(request.frame, offset - low);
    // No `?`, which says the same: document 01 names this form for the place of an access.
    let Ok(place) = found else {
        return found;
    };
    if !wide_enough(width, low, place) {
        return Err(Refusal::Narrow);
    }
    Ok(place)
}

// The INTID that a frame's extended words are counted from. No method: a frame is of `types`, where no rule stands.
fn origin(frame: Frame) -> u32
    ensures { result ≡ origin frame }
{
    match frame {
        Frame::Dist => 4096,
        Frame::Redist => 1024,
    }
}

// How many digits a word has that begins with the INTID `first`. The Distributor's low words are res0.
fn count_of(frame: Frame, first: u32, per: u32) -> u32
    ensures { result ≡ count_of frame first per }
{
    match frame {
        Frame::Dist if first < 32 => 0,
        Frame::Dist | Frame::Redist => per,
    }
}

// Word n of words that are counted from the INTID `from`.
#[tactic(auto, using(register_families::proofs::Rows::few_digits))]
fn digits(frame: Frame, family: Family, from: u32, n: u32) -> Target
    requires { (from ≤ 4096) × (n < 64) }
    ensures { result ≡ digits_from frame family from n }
{
    let per = row_of(family).per;
    let first = from + per * n;
    Target::Digits(Window {
        frame,
        family,
        first,
        count: count_of(frame, first, per),
    })
}

// What a place stands for. Behind the decoder no other function takes a place apart.
#[tactic(auto, unfolding(meaning::specs::Registers::target_of))]
pub fn target_of(place: Place) -> Target
    requires { number_of place < 64 }
    ensures { result ≡ target_of place }
{
    match place {
        Place::Word(frame, f, n) => digits(frame, f, 0, n),
        Place::Extended(frame, f, n) => digits(frame, f, origin(frame), n),
        Place::Typer => Target::Typer,
        Place::Message(g) => Target::Message(g),
    }
}

// What the numbers of a request stand for, and the number of an answer. Six numbers, or four, are parameters and no struct: C passes them
// so. `one_or_two`, `zero_or_one`, `names_access`, `side_of`, `shape_of` and `request_of` are called here alone and stay public, since
// their promises are kept as they were.
#![tactic(auto, unfolding(crate::specs::Numbers::frame_of, crate::specs::Numbers::side_of, crate::specs::Numbers::way_of))]

ghost use Rattle.std.specs.Prelude.{◌≡◌, ◌&&◌, eqb};
ghost use Rattle.std.specs.Bool.{then_some};
ghost use Rattle.abi_numbers.specs.Numbers.{one_or_two, zero_or_one, frame_of, side_of, way_of, shape_of, request_of};
ghost use Rattle.abi_numbers.specs.Code.{code_of, shut_code, asked};

use answers::{status_of, value_of};
use types::{Access, Answer, Frame, Refusal, Shape, Side, Way};

// A number that names a frame, a side or a way.
pub fn one_or_two(n: u32) -> bool
    ensures { result ≡ one_or_two n }
{
    matches!(n, 1 | 2)
}

// A number that is a level, or an mbis.
pub fn zero_or_one(n: u32) -> bool
    ensures { result ≡ zero_or_one n }
{
    matches!(n, 0 | 1)
}

// The numbers of an access name a frame, a side and a way.
pub fn names_access(frame: u32, side: u32, way: u32) -> bool
    ensures { result ≡ (one_or_two frame && (one_or_two side && one_or_two way)) }
{
    one_or_two(frame) && one_or_two(side) && one_or_two(way)
}

// What a number stands for, whether or not it names anything: above all, one that is not 2 is never the Secure side. No TryFrom: neither
// the number nor the enums are types of this crate. Three functions alike, since each answers another enum: one generic function would
// need an impl for each, the same lines again.
fn frame_of(n: u32) -> Frame
    ensures { result ≡ frame_of n }
{
    if n == 1 { Frame::Dist } else { Frame::Redist }
}

// 2 is the Secure side, any other number the Non-secure one.
pub fn side_of(n: u32) -> Side
    ensures { result ≡ side_of n }
{
    if n == 2 {
        Side::Secure
    } else {
        Side::NonSecure
    }
}

fn way_of(n: u32) -> Way
    ensures { result ≡ way_of n }
{
    if n == 2 { Way::Write } else { Way::Read }
}

// The shape that four numbers say, none of them judged: mbis is on where its number is 1.
#[tactic(auto, unfolding(crate::specs::Numbers::shape_of))]
pub fn shape_of(lines: u32, espi: u32, eppi: u32, mbis: u32) -> Shape
    ensures { result ≡ shape_of lines espi eppi mbis }
{
    Shape::new(lines, espi, eppi, mbis == 1)
}

// The access that six numbers say, none of them judged.
#[tactic(auto, unfolding(crate::specs::Numbers::request_of))]
pub fn request_of(frame: u32, side: u32, way: u32, width: u32, offset: u32, value: u32) -> Access
    ensures { result ≡ request_of frame side way width offset value }
{
    Access::new(
        frame_of(frame),
        side_of(side),
        way_of(way),
        width,
        offset,
        value,
    )
}

// The same of numbers that are what they have to be, and None of any other.
pub fn side_named(n: u32) -> Option<Side>
    ensures { result ≡ then_some (one_or_two n) (side_of n) }
{
    one_or_two(n).then_some(side_of(n))
}

pub fn level_named(n: u32) -> Option<bool>
    ensures { result ≡ then_some (zero_or_one n) (eqb n 1) }
{
    zero_or_one(n).then_some(n == 1)
}

pub fn shape_named(lines: u32, espi: u32, eppi: u32, mbis: u32) -> Option<Shape>
    ensures { result ≡ then_some (zero_or_one mbis) (shape_of lines espi eppi mbis) }
{
    zero_or_one(mbis).then_some(shape_of(lines, espi, eppi, mbis))
}

pub fn access_named(
    frame: u32,
    side: u32,
    way: u32,
    width: u32,
    offset: u32,
    value: u32,
) -> Option<Access>
    ensures { result
        ≡ then_some (one_or_two frame && (one_or_two side && one_or_two way)) (request_of frame side way width offset value) }
{
    names_access(frame, side, way).then_some(request_of(frame, side, way, width, offset, value))
}

// Why a call is answered before the controller is asked: a number of its request names nothing, or mbis is neither 0 nor 1.
#[derive(Clone, Copy)]
pub enum Shut {
    Nameless,
    IllShaped,
}

impl Shut {
    // Status 100, outside document 01's numbers, or refusal 1.
    pub fn code(self) -> u64
        ensures { result ≡ shut_code self }
    {
        match self {
            Shut::Nameless => 100 << 32,
            Shut::IllShaped => code_of(Err(Refusal::Shape)),
        }
    }
}

// The shape and the request that the controller is asked with, if the numbers of the call gave both.
pub fn asked<T: Drop>(shape: Option<Shape>, request: Option<T>) -> Result<(Shape, T), Shut>
    ensures { result ≡ asked shape request }
{
    let request = request.ok_or(Shut::Nameless)?;
    let shape = shape.ok_or(Shut::IllShaped)?;
    Ok((shape, request))
}

// status · 2^32 + value
#[tactic(auto, unfolding(crate::specs::Code::code_of))]
pub fn code_of(answer: Answer) -> u64
    ensures { result ≡ code_of answer }
{
    (u64::from(status_of(answer)) << 32) + u64::from(value_of(answer))
}

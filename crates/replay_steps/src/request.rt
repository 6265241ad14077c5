// The values of a step's lines, put together. Its words are numbers there: `feed` takes any Progress, and request_of says what they ask.
// Three functions alike, since each answers another enum: one generic function would need an impl for each.
ghost use Rattle.std.specs.Prelude.{◌≡◌};
ghost use Rattle.replay_meaning.specs.Run.{frame_of, side_of, way_of, shape_of, request_of};

use replay_keys::Key;
use types::{Access, Frame, Shape, Side, Way};

fn frame_of(n: u32) -> Frame
    ensures { result ≡ frame_of n }
{
    match n {
        0 => Frame::Dist,
        _ => Frame::Redist,
    }
}

fn side_of(n: u32) -> Side
    ensures { result ≡ side_of n }
{
    match n {
        0 => Side::Secure,
        _ => Side::NonSecure,
    }
}

fn way_of(n: u32) -> Way
    ensures { result ≡ way_of n }
{
    match n {
        0 => Way::Read,
        _ => Way::Write,
    }
}

#[tactic(auto, unfolding(replay_meaning::specs::Run::shape_of))]
pub fn shape_of(values: [u32; 10]) -> Shape
    ensures { result ≡ shape_of values }
{
    Shape::new(
        values[Key::Lines.rank()],
        values[Key::Espi.rank()],
        values[Key::Eppi.rank()],
        values[Key::Mbis.rank()] == 1,
    )
}

#[tactic(auto, unfolding(replay_meaning::specs::Run::request_of))]
pub fn request_of(values: [u32; 10]) -> Access
    ensures { result ≡ request_of values }
{
    Access::new(
        frame_of(values[Key::Frame.rank()]),
        side_of(values[Key::Sec.rank()]),
        way_of(values[Key::Op.rank()]),
        values[Key::Width.rank()],
        values[Key::Offset.rank()],
        values[Key::Value.rank()],
    )
}

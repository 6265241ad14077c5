// A drawn step of a long random run, put to the controller (docs/SOAK.md).
ghost use Rattle.std.specs.Prelude.{◌+◌, ◌<◌, ◌≤◌};

use crate::lent::Tables;
use controller::Controller;
use types::{Access, Answer, Event, Shape};

// What is asked of the controller.
#[derive(Clone, Copy)]
pub enum Step {
    Access(Access),
    // On an INTID.
    Event(u32, Event),
    Reset,
}

impl Step {
    // 1 for the Non-secure side; 0 for the Secure one, and for a step that names none.
    pub fn side(self) -> u32
        ensures { result < 2 }
    {
        match self {
            Step::Access(access) => access.side as u32,
            Step::Event(_, Event::Activate(side) | Event::Deactivate(side)) => side as u32,
            Step::Event(_, Event::Wire(_)) | Step::Reset => 0,
        }
    }

    // 1 for a write, and for a wire that goes high.
    pub fn way(self) -> u32
        ensures { result < 2 }
    {
        match self {
            Step::Access(access) => access.way as u32,
            Step::Event(_, Event::Wire(high)) => u32::from(high),
            Step::Event(..) | Step::Reset => 0,
        }
    }
}

#[derive(Clone, Copy, PartialEq, Eq)]
pub enum Part {
    Dist,
    Redist,
    DistPresence,
    RedistPresence,
}

#[derive(Clone, Copy, PartialEq, Eq)]
pub enum Limit {
    Lines,
    Espi,
    Eppi,
}

// What is off its limit for one step alone: a table that is lent an element short or long, or a shape number, one past its limit or the
// largest there is.
#[derive(Clone, Copy, PartialEq, Eq)]
pub enum Off {
    Short(Part),
    Long(Part),
    Past(Limit),
    Largest(Limit),
}

impl Off {
    // The number that is shown of it.
    pub fn number(self) -> u32 {
        match self {
            Off::Short(part) => 1 + 2 * (part as u32),
            Off::Long(part) => 2 + 2 * (part as u32),
            Off::Past(limit) => 9 + limit as u32,
            Off::Largest(limit) => 12 + limit as u32,
        }
    }
}

// How many elements of a table are lent, of `right` that it has.
fn lent_of(off: Option<Off>, part: Part, right: usize) -> usize
    ensures { result ≤ right + 1 }
{
    match off {
        Some(Off::Short(short)) if short == part => right.saturating_sub(1),
        Some(Off::Long(long)) if long == part => right.saturating_add(1),
        _ => right,
    }
}

// A shape number, or what stands for it where it is off its limit.
fn passed(off: Option<Off>, limit: Limit, right: u32, past: u32) -> u32 {
    match off {
        Some(Off::Past(passed)) if passed == limit => past,
        Some(Off::Largest(passed)) if passed == limit => u32::MAX,
        _ => right,
    }
}

fn shape_off(off: Option<Off>, shape: Shape) -> Shape {
    Shape::new(
        passed(off, Limit::Lines, shape.lines, 32),
        passed(off, Limit::Espi, shape.espi, 33),
        passed(off, Limit::Eppi, shape.eppi, 3),
        shape.mbis,
    )
}

// One step on tables of any lengths. What `off` names is off its limit for this step alone; of a table that is too short for what is to be
// lent of it, all is lent.
pub fn ask(
    dist: &mut [u8],
    redist: &mut [u8],
    dist_presence: &[u32],
    redist_presence: &[u32],
    shape: Shape,
    off: Option<Off>,
    step: Step,
) -> Answer {
    let dist_bytes = lent_of(off, Part::Dist, 2012).min(dist.len());
    let redist_bytes = lent_of(off, Part::Redist, 96).min(redist.len());
    let dist_words = lent_of(off, Part::DistPresence, 63).min(dist_presence.len());
    let redist_words = lent_of(off, Part::RedistPresence, 3).min(redist_presence.len());
    let mut controller = Controller {
        dist: &mut dist[..dist_bytes],
        redist: &mut redist[..redist_bytes],
        dist_presence: &dist_presence[..dist_words],
        redist_presence: &redist_presence[..redist_words],
        shape: shape_off(off, shape),
    };
    match step {
        Step::Access(access) => controller.access(access),
        Step::Event(intid, event) => controller.event(intid, event),
        Step::Reset => controller.reset(),
    }
}

impl Tables {
    // One step on these tables.
    pub fn ask(&mut self, shape: Shape, off: Option<Off>, step: Step) -> Answer {
        let Tables {
            dist,
            redist,
            dist_presence,
            redist_presence,
        } = self;
        ask(
            dist,
            redist,
            dist_presence,
            redist_presence,
            shape,
            off,
            step,
        )
    }
}

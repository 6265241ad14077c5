// The library for C and Rust: each function is one of the controller's, with numbers for its request and one number of 64 bits,
// status · 2^32 + value, for its answer. include/berduzhika.h declares them and says what each number stands for. There is no
// condition on any number or length; the promise of each function is one equation, refusals included. The C interface needs each
// table and each number as a parameter of its own, a function of its own for each event, and a number as the answer, so that no `?` hands
// on what is answered at once.
//
//   dist             2,012 record bytes of the Distributor      lent for reading and writing
//   redist           96 record bytes of the Redistributor       lent for reading and writing
//   dist_presence    63 presence words                          lent for reading
//   redist_presence  3 presence words                           lent for reading
//   lines espi eppi mbis   the shape: document 01's numbers, mbis 0 or 1
#![tactic(auto)]

ghost use Rattle.std.specs.Prelude.{◌≡◌};
ghost use Rattle.meaning.specs.Layout.{lent};
ghost use Rattle.berduzhika.specs.Returned.{access_returns, wire_returns, activate_returns, deactivate_returns, reset_returns};

use abi_numbers::{Shut, access_named, asked, code_of, level_named, shape_named, side_named};
use controller::Controller;
use types::Event;

// A read or a write of `width` bytes at an offset of a frame. A read ignores `value`.
#[unsafe(no_mangle)]
pub extern "C" fn berduzhika_access(
    dist: &mut [u8],
    redist: &mut [u8],
    dist_presence: &[u32],
    redist_presence: &[u32],
    lines: u32,
    espi: u32,
    eppi: u32,
    mbis: u32,
    frame: u32,
    side: u32,
    way: u32,
    width: u32,
    offset: u32,
    value: u32,
) -> u64
    ensures { record {
      code = result;
      tables = lent dist.new redist.new dist_presence.now redist_presence.now;
    }
        ≡ access_returns lines espi eppi mbis frame side way width offset value
        (lent dist.old redist.old dist_presence.now redist_presence.now) }
{
    let request = access_named(frame, side, way, width, offset, value);
    let (shape, request) = match asked(shape_named(lines, espi, eppi, mbis), request) {
        Ok(both) => both,
        Err(shut) => return shut.code(),
    };
    let mut controller = Controller {
        dist,
        redist,
        dist_presence,
        redist_presence,
        shape,
    };
    code_of(controller.access(request))
}

// A wire event: the interrupt's signal goes to `level`, 0 or 1.
#[unsafe(no_mangle)]
pub extern "C" fn berduzhika_wire(
    dist: &mut [u8],
    redist: &mut [u8],
    dist_presence: &[u32],
    redist_presence: &[u32],
    lines: u32,
    espi: u32,
    eppi: u32,
    mbis: u32,
    intid: u32,
    level: u32,
) -> u64
    ensures { record {
      code = result;
      tables = lent dist.new redist.new dist_presence.now redist_presence.now;
    }
        ≡ wire_returns lines espi eppi mbis intid level
        (lent dist.old redist.old dist_presence.now redist_presence.now) }
{
    let (shape, high) = match asked(shape_named(lines, espi, eppi, mbis), level_named(level)) {
        Ok(both) => both,
        Err(shut) => return shut.code(),
    };
    let wire = Event::Wire(high);
    let mut controller = Controller {
        dist,
        redist,
        dist_presence,
        redist_presence,
        shape,
    };
    code_of(controller.event(intid, wire))
}

// A side takes the interrupt: it becomes active.
#[unsafe(no_mangle)]
pub extern "C" fn berduzhika_activate(
    dist: &mut [u8],
    redist: &mut [u8],
    dist_presence: &[u32],
    redist_presence: &[u32],
    lines: u32,
    espi: u32,
    eppi: u32,
    mbis: u32,
    side: u32,
    intid: u32,
) -> u64
    ensures { record {
      code = result;
      tables = lent dist.new redist.new dist_presence.now redist_presence.now;
    }
        ≡ activate_returns lines espi eppi mbis side intid
        (lent dist.old redist.old dist_presence.now redist_presence.now) }
{
    let (shape, side) = match asked(shape_named(lines, espi, eppi, mbis), side_named(side)) {
        Ok(both) => both,
        Err(shut) => return shut.code(),
    };
    let taken = Event::Activate(side);
    let mut controller = Controller {
        dist,
        redist,
        dist_presence,
        redist_presence,
        shape,
    };
    // the whole INTID: 65836 is not taken for 300
    code_of(controller.event(intid, taken))
}

// A side is done with the interrupt: it is active no more.
#[unsafe(no_mangle)]
pub extern "C" fn berduzhika_deactivate(
    dist: &mut [u8],
    redist: &mut [u8],
    dist_presence: &[u32],
    redist_presence: &[u32],
    lines: u32,
    espi: u32,
    eppi: u32,
    mbis: u32,
    side: u32,
    intid: u32,
) -> u64
    ensures { record {
      code = result;
      tables = lent dist.new redist.new dist_presence.now redist_presence.now;
    }
        ≡ deactivate_returns lines espi eppi mbis side intid
        (lent dist.old redist.old dist_presence.now redist_presence.now) }
{
    let (shape, side) = match asked(shape_named(lines, espi, eppi, mbis), side_named(side)) {
        Ok(both) => both,
        Err(shut) => return shut.code(),
    };
    let done = Event::Deactivate(side);
    let mut controller = Controller {
        dist,
        redist,
        dist_presence,
        redist_presence,
        shape,
    };
    // the whole INTID: 65836 does not let 300 go
    code_of(controller.event(intid, done))
}

// All record bytes become 0; presence stays.
#[tactic(auto, unfolding(crate::specs::Returned::after_gate, abi_numbers::specs::Code::shut))]
#[unsafe(no_mangle)]
pub extern "C" fn berduzhika_reset(
    dist: &mut [u8],
    redist: &mut [u8],
    dist_presence: &[u32],
    redist_presence: &[u32],
    lines: u32,
    espi: u32,
    eppi: u32,
    mbis: u32,
) -> u64
    ensures { record {
      code = result;
      tables = lent dist.new redist.new dist_presence.now redist_presence.now;
    }
        ≡ reset_returns lines espi eppi mbis
        (lent dist.old redist.old dist_presence.now redist_presence.now) }
{
    let Some(shape) = shape_named(lines, espi, eppi, mbis) else {
        return Shut::IllShaped.code();
    };
    let mut controller = Controller {
        dist,
        redist,
        dist_presence,
        redist_presence,
        shape,
    };
    code_of(controller.reset())
}

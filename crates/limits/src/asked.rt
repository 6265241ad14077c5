// What is built and the four tables that it lends; the requests that are put to them, and how a shape and an answer are written.
use answers::{status_of, value_of};
use controller::Controller;
use std::fmt;
use types::{Access, Answer, Event, Shape};

// Words of presence: every interrupt, and every one but the first of each word.
pub const ALL: u32 = 4294967295;

pub const FEWER: u32 = 4294967294;

pub const BENCH: Shape = Shape {
    lines: 9,
    espi: 4,
    eppi: 1,
    mbis: true,
};

// A shape, as written: here and not in `types`, since printing is no word of the meaning and `soak` has its own text.
#[derive(Clone, Copy)]
pub struct Built(pub Shape);

impl fmt::Display for Built {
    fn fmt<W: fmt::Write>(&self, f: &mut fmt::Formatter<W>) -> fmt::Result {
        let shape = self.0;
        write!(
            f,
            " lines={} espi={} eppi={}",
            shape.lines, shape.espi, shape.eppi
        )
    }
}

// An answer, as written.
#[derive(Clone, Copy)]
pub struct Said(pub Answer);

impl fmt::Display for Said {
    fn fmt<W: fmt::Write>(&self, f: &mut fmt::Formatter<W>) -> fmt::Result {
        write!(
            f,
            " status={} value={}",
            status_of(self.0),
            value_of(self.0)
        )
    }
}

#[derive(Drop)]
pub struct Machine {
    shape: Shape,
    dist: [u8; 2012],
    redist: [u8; 96],
    dist_presence: [u32; 63],
    redist_presence: [u32; 3],
}

impl Machine {
    // All records 0. Presence words are all alike: each is the word `present`.
    pub fn new(shape: Shape, present: u32) -> Machine {
        Machine {
            shape,
            dist: [0; 2012],
            redist: [0; 96],
            dist_presence: [present; 63],
            redist_presence: [present; 3],
        }
    }

    // The bench shape with every interrupt; all records 0 but SPI 300's, which is slot 268.
    pub fn with_record(record: u8) -> Machine {
        let mut machine = Machine::new(BENCH, ALL);
        machine.dist[268] = record;
        machine
    }

    // The tables, lent. Taken apart first: the check does not follow `&mut self.dist` and the others in the literal.
    fn controller(&mut self) -> Controller<'_, '_> {
        let Machine {
            shape,
            dist,
            redist,
            dist_presence,
            redist_presence,
        } = self;
        Controller {
            dist,
            redist,
            dist_presence,
            redist_presence,
            shape: *shape,
        }
    }

    pub fn access(&mut self, request: Access) -> Said {
        Said(self.controller().access(request))
    }

    pub fn event(&mut self, intid: u32, event: Event) -> Said {
        Said(self.controller().event(intid, event))
    }

    pub fn reset(&mut self) -> Said {
        Said(self.controller().reset())
    }
}

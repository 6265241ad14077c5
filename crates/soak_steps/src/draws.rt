// What a step of a long random run asks for (docs/SOAK.md). Each step takes four numbers of the stream, whatever it is.
ghost use Rattle.std.specs.Prelude.{◌<◌};

use crate::asked::{Limit, Off, Part, Step};
use crate::edges::{any_offset, any_width, edge};
use crate::random::{next, pick, word};
use crate::table::{Column, Home, Table};
use types::{Access, Event, Family, Frame, Message, Side, Way};

const FAMILIES: [Family; 9] = [
    Family::Igroupr,
    Family::Isenabler,
    Family::Icenabler,
    Family::Ispendr,
    Family::Icpendr,
    Family::Isactiver,
    Family::Icactiver,
    Family::Igrpmodr,
    Family::Icfgr,
];

const MESSAGES: [Message; 4] = [
    Message::SetspiNsr,
    Message::ClrspiNsr,
    Message::SetspiSr,
    Message::ClrspiSr,
];

const OFFS: [Off; 14] = [
    Off::Short(Part::Dist),
    Off::Long(Part::Dist),
    Off::Short(Part::Redist),
    Off::Long(Part::Redist),
    Off::Short(Part::DistPresence),
    Off::Long(Part::DistPresence),
    Off::Short(Part::RedistPresence),
    Off::Long(Part::RedistPresence),
    Off::Past(Limit::Lines),
    Off::Past(Limit::Espi),
    Off::Past(Limit::Eppi),
    Off::Largest(Limit::Lines),
    Off::Largest(Limit::Espi),
    Off::Largest(Limit::Eppi),
];

// The kind of step.
#[derive(Clone, Copy)]
pub enum Kind {
    // A word of a family.
    Word(Column, Family),
    Typer,
    Message(Message),
    // Any width at any offset.
    Anywhere,
    Wire,
    Activate,
    Deactivate,
    Reset,
}

impl Kind {
    // The number by which steps are counted: of a word 9 · column + family, as the two are declared.
    pub fn class(self) -> u32
        ensures { result < 37 }
    {
        match self {
            Kind::Word(column, family) => 9 * (column as u32) + family as u32,
            Kind::Typer => 27,
            Kind::Message(message) => 28 + message as u32,
            Kind::Anywhere => 32,
            Kind::Wire => 33,
            Kind::Activate => 34,
            Kind::Deactivate => 35,
            Kind::Reset => 36,
        }
    }
}

// A step, what is off its limit for it, and the stream after it.
#[derive(Clone, Copy)]
pub struct Drawn {
    pub kind: Kind,
    pub step: Step,
    pub off: Option<Off>,
    pub x: u64,
}

impl Table {
    // The step that is taken where the stream stands at x.
    pub fn step(self, x: u64) -> Drawn {
        let n = Numbers::after(x);
        let (kind, step) = n.request(self, self.homes[pick(n.a, 4, 4) as usize]);
        Drawn {
            kind,
            step,
            off: OFFS.get(pick(n.e, 40, 512) as usize).copied(),
            x: n.e,
        }
    }
}

// The four numbers of a step. Named and not an array, so that a draw here reads as the second model's does.
#[derive(Clone, Copy)]
struct Numbers {
    a: u64,
    b: u64,
    c: u64,
    e: u64,
}

impl Numbers {
    fn after(x: u64) -> Numbers {
        let a = next(x);
        let b = next(a);
        let c = next(b);
        let e = next(c);
        Numbers { a, b, c, e }
    }

    // Of 64 steps about 8 are wires, 6 activations, 5 deactivations, one TYPER or (1 in 32) reset, 6 messages, 4 anywhere, 34 words of
    // a family.
    fn request(self, table: Table, home: Home) -> (Kind, Step) {
        match pick(self.a, 8, 64) {
            0..=7 => {
                let wire = Event::Wire(pick(self.e, 8, 2) == 1);
                (Kind::Wire, Step::Event(self.named(table, home), wire))
            }
            8..=13 => {
                let activate = Event::Activate(self.side());
                (
                    Kind::Activate,
                    Step::Event(self.named(table, home), activate),
                )
            }
            14..=18 => {
                let deactivate = Event::Deactivate(self.side());
                (
                    Kind::Deactivate,
                    Step::Event(self.named(table, home), deactivate),
                )
            }
            19 if pick(self.a, 24, 32) == 0 => (Kind::Reset, Step::Reset),
            19 => (
                Kind::Typer,
                self.access(Frame::Dist, 4, 4, word(self.c >> 8)),
            ),
            20..=25 => self.message(self.named(table, home)),
            26..=29 => (Kind::Anywhere, self.anywhere()),
            _ => self.family(home),
        }
    }

    fn side(self) -> Side {
        match pick(self.a, 16, 2) {
            0 => Side::Secure,
            _ => Side::NonSecure,
        }
    }

    // An access. The value to write is drawn for reads as well, which ignore it, and then only shown.
    fn access(self, frame: Frame, width: u32, offset: u32, value: u32) -> Step {
        let way = match pick(self.a, 20, 8) {
            0..=2 => Way::Read,
            _ => Way::Write,
        };
        Step::Access(Access::new(frame, self.side(), way, width, offset, value))
    }

    // An INTID: the home's (5 of 8), one of its word, an edge, or one near the shape's limits.
    fn named(self, table: Table, home: Home) -> u32 {
        match pick(self.c, 4, 8) {
            0..=4 => home.intid(),
            5 => {
                let bit = pick(self.b, 24, 32);
                // Here and in `wander` each field by itself: `..home` is refused in a struct with invariants.
                Home {
                    column: home.column,
                    word: home.word,
                    bit,
                }
                .intid()
            }
            6 => edge(word(self.b >> 24)),
            _ => table.near(pick(self.b, 32, 8), word(self.e >> 16)),
        }
    }

    // SETSPI and CLRSPI, with anything in the value's bits above 12.
    fn message(self, intid: u32) -> (Kind, Step) {
        let which = pick(self.b, 4, 4);
        let width = if pick(self.b, 8, 2) == 0 { 2 } else { 4 };
        let value = (intid % 8192) | (word(self.c >> 8) & 0xFFFFE000);
        let step = self.access(Frame::Dist, width, 0x40 + 8 * which, value);
        (Kind::Message(MESSAGES[which as usize]), step)
    }

    // Any width at any offset of any frame; most are refused.
    fn anywhere(self) -> Step {
        let frame = match pick(self.b, 4, 2) {
            0 => Frame::Dist,
            _ => Frame::Redist,
        };
        let offset = any_offset(pick(self.b, 8, 32), word(self.c >> 8));
        let width = any_width(pick(self.b, 16, 16), word(self.e >> 8));
        self.access(frame, width, offset, word(self.e >> 24))
    }

    // A word of a family: the home's, or (1 in 16) any; 1 in 64 at width 2.
    fn family(self, home: Home) -> (Kind, Step) {
        let family = FAMILIES[pick(self.b, 4, 9) as usize];
        let at = if pick(self.b, 8, 16) == 0 {
            self.wander(home)
        } else {
            home
        };
        let frame = match at.column {
            Column::Dist | Column::Extended => Frame::Dist,
            Column::Redist => Frame::Redist,
        };
        let width = if pick(self.b, 40, 64) == 0 { 2 } else { 4 };
        let value = self.written(at.mask(family));
        let step = self.access(frame, width, at.offset(family), value);
        (Kind::Word(at.column, family), step)
    }

    // Another word, with the home's bit; word 3 of the Redistributor is not listed.
    fn wander(self, home: Home) -> Home {
        let any = word(self.b >> 20);
        let (column, word) = match pick(self.b, 16, 3) {
            0 => (Column::Dist, any % 32),
            1 => (Column::Extended, any % 32),
            _ => (Column::Redist, any % 4),
        };
        Home {
            column,
            word,
            bit: home.bit,
        }
    }

    // A value that mostly has the home's bit.
    fn written(self, bit: u32) -> u32 {
        let any = word(self.c >> 8);
        match pick(self.c, 44, 8) {
            0 => bit,
            1 => u32::MAX,
            2 => 0,
            3 => any & !bit,
            _ => any | bit,
        }
    }
}

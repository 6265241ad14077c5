// A starting table: its shape, how its lent tables are filled, and the four homes that its steps come back to.
ghost use Rattle.std.specs.Prelude.{◌<◌, ◌≤◌};

use crate::random::{next, pick, start, word};
use types::Shape;

// Whose words: the Distributor's, its extended ones, the Redistributor's.
#[derive(Clone, Copy)]
pub enum Column {
    Dist,
    Extended,
    Redist,
}

// A register word and a bit of it.
#[derive(Clone, Copy)]
pub struct Home {
    pub column: Column,
    pub word: u32,
    pub bit: u32,
    ghost word_bound: { word < 32 },
    ghost bit_bound: { bit < 32 },
}

impl Home {
    // A home: in range more often than not, and often at a limit of the shape. Where the shape has no words of its column, it is mostly in
    // word 0 of the Redistributor.
    fn drawn(shape: Shape, x: u64) -> Home {
        let near = pick(x, 12, 8);
        let any = word(x >> 16);
        let bit = pick(x, 40, 32);
        match pick(x, 8, 8) {
            0..=2 if shape.lines > 0 || near == 0 => Home {
                column: Column::Dist,
                word: near_limit(near, any, shape.lines),
                bit,
            },
            3..=5 if shape.espi > 0 || near == 0 => Home {
                column: Column::Extended,
                word: near_limit(near, any, shape.espi.saturating_sub(1)),
                bit,
            },
            7 => Home {
                column: Column::Redist,
                word: near_limit(near, any, shape.eppi).min(2),
                bit,
            },
            _ => Home {
                column: Column::Redist,
                word: 0,
                bit,
            },
        }
    }

    // The INTID of the bit; for Distributor word 31 it may be one that never exists.
    pub fn intid(self) -> u32 {
        let first = match self.column {
            Column::Dist => 0,
            Column::Extended => 4096,
            Column::Redist if self.word == 0 => 0,
            Column::Redist => 1024,
        };
        first + 32 * self.word + self.bit
    }
}

// How the record bytes are filled: all 0, any that are Non-secure, or any.
#[derive(Clone, Copy)]
pub enum Records {
    Zero,
    NonSecure,
    Any,
}

impl Records {
    // Not `From`: `n` is one of four draws and no number of a filling, of which there are three. So with `Presence`.
    fn drawn(n: u32) -> Records {
        match n {
            0 => Records::Zero,
            1 => Records::NonSecure,
            _ => Records::Any,
        }
    }

    // A record byte, of a number of the stream.
    pub(crate) fn byte(self, x: u64) -> u8 {
        let any = ((x >> 24) & 0xFF) as u8;
        match self {
            Records::Zero => 0,
            Records::NonSecure => any | 64,
            Records::Any => any,
        }
    }
}

// How the presence words are filled: with all interrupts, about half of them, or three of four.
#[derive(Clone, Copy)]
pub enum Presence {
    All,
    Half,
    Most,
}

impl Presence {
    // As `Records::drawn`, but of another enum.
    fn drawn(n: u32) -> Presence {
        match n {
            0 => Presence::All,
            1 => Presence::Half,
            _ => Presence::Most,
        }
    }

    // A presence word, of a number of the stream.
    pub(crate) fn word(self, x: u64) -> u32 {
        let any = word(x >> 8);
        match self {
            Presence::All => u32::MAX,
            Presence::Half => any,
            Presence::Most => any | word(x >> 32),
        }
    }
}

#[derive(Clone, Copy)]
pub struct Table {
    pub shape: Shape,
    pub homes: [Home; 4],
    pub records: Records,
    pub presence: Presence,
    // The stream after all this was drawn.
    pub x: u64,
    ghost lines_bound: { shape.lines ≤ 31 },
    ghost espi_bound: { shape.espi ≤ 32 },
    ghost eppi_bound: { shape.eppi ≤ 2 },
}

impl Table {
    pub fn begun(number: u64) -> Table {
        let a = next(start(number));
        let b = next(a);
        let c = next(b);
        let lines = limit(a, 31, 9);
        let espi = limit(b, 32, 4);
        let eppi = pick(c, 8, 3);
        let shape = Shape::new(lines, espi, eppi, pick(c, 16, 4) != 0);
        let mut x = c;
        let homes = std::array::from_fn(|_| {
            x = next(x);
            Home::drawn(shape, x)
        });
        Table {
            shape,
            homes,
            records: Records::drawn(pick(c, 32, 4)),
            presence: Presence::drawn(pick(c, 24, 4)),
            x,
        }
    }
}

// A shape number: often the largest, sometimes 0 or the bench shape's.
fn limit(x: u64, most: u32, bench: u32) -> u32
    ensures { bench ≤ most → result ≤ most }
{
    match pick(x, 8, 8) {
        0 | 1 => most,
        2 => 0,
        3 => bench,
        _ => word(x >> 16) % most.saturating_add(1),
    }
}

// A word number up to the last one in range, or the one after it, at most 31.
fn near_limit(near: u32, any: u32, last: u32) -> u32
    ensures { result < 32 }
{
    let last = last.min(31);
    match near {
        0 => (last + 1).min(31),
        1 | 2 => last,
        _ => any % (last + 1),
    }
}

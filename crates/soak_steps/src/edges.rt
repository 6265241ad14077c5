// The numbers that a long random run comes back to: where document 01's registers begin and where its ranges end (docs/SOAK.md).
ghost use Rattle.std.specs.Prelude.{◌≤◌};

use crate::table::{Column, Home, Table};
use types::Family;

const INTIDS: [u32; 24] = [
    0, 15, 16, 31, 32, 319, 320, 1019, 1020, 1023, 1055, 1056, 1087, 1088, 1119, 1120, 4095, 4096,
    4223, 4224, 5119, 5120, 65836, 4294967295,
];

const OFFSETS: [u32; 20] = [
    0x0000, 0xFFFC, 0x10000, 0x10001, 0x226, 0x224, 0x40, 0x41, 0x42, 0x44, 0x48, 0x50, 0x58, 0x5A,
    0x08C, 0xC14, 0xC18, 0xD0C, 4294967292, 4294967295,
];

const WIDTHS: [u32; 8] = [2, 4, 4, 2, 1, 0, 3, 8];

// An INTID at one of document 01's edges.
pub fn edge(k: u32) -> u32 {
    INTIDS[(k % 24) as usize]
}

impl Table {
    // An INTID at a limit of the shape or one past it, or any.
    pub(crate) fn near(self, which: u32, any: u32) -> u32 {
        let shape = self.shape;
        match which {
            0 => 32 * shape.lines + 31,
            1 => 32 * shape.lines + 32,
            2 => 1055 + 32 * shape.eppi,
            3 => 1056 + 32 * shape.eppi,
            4 => 4095 + 32 * shape.espi,
            5 => 4096 + 32 * shape.espi,
            6 => any,
            _ => any % 5200,
        }
    }
}

// An offset: an edge, any in the frame, any word's, one past the frame, or any.
pub fn any_offset(which: u32, any: u32) -> u32 {
    match which {
        0..=19 => OFFSETS[which as usize],
        20..=23 => any % 65536,
        24..=27 => 4 * (any % 4096),
        28 | 29 => 65536 + any % 65536,
        _ => any,
    }
}

// A width: one of a few, or any.
pub fn any_width(which: u32, any: u32) -> u32 {
    match which {
        0..=7 => WIDTHS[which as usize],
        8 => any,
        _ => 4,
    }
}

// The offset of a family's first word, from document 01's table and not from register_families, so that a wrong row is not followed.
fn base(family: Family) -> u32
    ensures { result ≤ 0x3400 }
{
    match family {
        Family::Igroupr => 0x080,
        Family::Isenabler => 0x100,
        Family::Icenabler => 0x180,
        Family::Ispendr => 0x200,
        Family::Icpendr => 0x280,
        Family::Isactiver => 0x300,
        Family::Icactiver => 0x380,
        Family::Igrpmodr => 0xD00,
        Family::Icfgr => 0xC00,
    }
}

// The same for its extended words.
fn extended_base(family: Family) -> u32
    ensures { result ≤ 0x3400 }
{
    match family {
        Family::Igroupr => 0x1000,
        Family::Isenabler => 0x1200,
        Family::Icenabler => 0x1400,
        Family::Ispendr => 0x1600,
        Family::Icpendr => 0x1800,
        Family::Isactiver => 0x1A00,
        Family::Icactiver => 0x1C00,
        Family::Igrpmodr => 0x3400,
        Family::Icfgr => 0x3000,
    }
}

impl Home {
    // The offset of a home's word in a family; ICFGR has two words for each.
    pub(crate) fn offset(self, family: Family) -> u32 {
        let first = match self.column {
            Column::Extended => extended_base(family),
            Column::Dist | Column::Redist => base(family),
        };
        match family {
            Family::Icfgr => first + 4 * (2 * self.word + self.bit / 16),
            _ => first + 4 * self.word,
        }
    }

    // A home's bit in its word of a family.
    pub(crate) fn mask(self, family: Family) -> u32 {
        match family {
            Family::Icfgr => 1 << (2 * (self.bit % 16) + 1),
            _ => 1 << self.bit,
        }
    }
}

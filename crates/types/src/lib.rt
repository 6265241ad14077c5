// The words that every layer shares: who asks, where, and what is answered. No rule stands here but the paper's numbers: a refusal's, and
// a record bit's value, which the meaning has again and the crates above are proved against.
#![tactic(auto)]

ghost use Rattle.std.specs.Prelude.{◌≡◌};

// The two frames that a monitor traps: the Distributor (Dist_base) and the Redistributor (SGI_base).
#[derive(Clone, Copy)]
pub enum Frame {
    Dist,
    Redist,
}

// The Security state that an access or an activation comes from.
#[derive(Clone, Copy)]
pub enum Side {
    Secure,
    NonSecure,
}

// What is built: SPI lines, words of extended SPIs, words of extended PPIs, message-based SPIs or none.
#[derive(Clone, Copy)]
pub struct Shape {
    pub lines: u32,
    pub espi: u32,
    pub eppi: u32,
    pub mbis: bool,
}

impl Shape {
    // Takes any numbers: one off its limit is refused by each function that takes the shape.
    pub fn new(lines: u32, espi: u32, eppi: u32, mbis: bool) -> Shape
        ensures { result ≡ record { lines = lines; espi = espi; eppi = eppi; mbis = mbis } }
    {
        Shape {
            lines,
            espi,
            eppi,
            mbis,
        }
    }
}

// Reads or writes.
#[derive(Clone, Copy)]
pub enum Way {
    Read,
    Write,
}

// One trapped access. A read carries a value too, which it ignores.
#[derive(Clone, Copy)]
pub struct Access {
    pub frame: Frame,
    pub side: Side,
    pub way: Way,
    pub width: u32,
    pub offset: u32,
    pub value: u32,
}

impl Access {
    // Takes any numbers: a width other than 2 and 4, and an offset with no register, are refused by each function that takes the access.
    pub fn new(frame: Frame, side: Side, way: Way, width: u32, offset: u32, value: u32) -> Access
        ensures { result ≡ record { frame = frame; side = side; way = way; width = width; offset = offset; value = value } }
    {
        Access {
            frame,
            side,
            way,
            width,
            offset,
            value,
        }
    }

    // A read of `width` bytes, of any width and at any offset.
    pub fn read(frame: Frame, side: Side, width: u32, offset: u32) -> Access
        ensures { result ≡ record { frame = frame; side = side; way = Way.Read; width = width; offset = offset; value = 0 } }
    {
        Access::new(frame, side, Way::Read, width, offset, 0)
    }

    // A write of `width` bytes of `value`, of any width and at any offset.
    pub fn write(frame: Frame, side: Side, width: u32, offset: u32, value: u32) -> Access
        ensures { result ≡ record { frame = frame; side = side; way = Way.Write; width = width; offset = offset; value = value } }
    {
        Access::new(frame, side, Way::Write, width, offset, value)
    }
}

// The bits of an interrupt's record, each by its value in the byte.
#[derive(Clone, Copy)]
pub enum Bit {
    Enabled = 1,
    Latch = 2,
    Wire = 4,
    MessageLevel = 8,
    Active = 16,
    Edge = 32,
    Group = 64,
    Modifier = 128,
}

// The register families that hold a digit for each interrupt.
#[derive(Clone, Copy)]
pub enum Family {
    Igroupr,
    Isenabler,
    Icenabler,
    Ispendr,
    Icpendr,
    Isactiver,
    Icactiver,
    Igrpmodr,
    Icfgr,
}

// The four message registers of the Distributor.
#[derive(Clone, Copy)]
pub enum Message {
    SetspiNsr,
    ClrspiNsr,
    SetspiSr,
    ClrspiSr,
}

// A listed register word.
#[derive(Clone, Copy)]
pub enum Place {
    // Word n of a family: INTIDs from 0 up.
    Word(Frame, Family, u32),
    // Word n of the family's extended registers: extended SPIs, or extended PPIs from word 1 (ICFGR: 2).
    Extended(Frame, Family, u32),
    Typer,
    Message(Message),
}

// Why a step is refused, by document 01's numbers.
#[derive(Clone, Copy)]
pub enum Refusal {
    Shape = 1,
    Width = 2,
    Alignment = 3,
    Offset = 4,
    Unlisted = 5,
    Narrow = 6,
    Intid = 7,
    SgiWire = 8,
    State = 9,
}

// Where an access goes, or why it goes nowhere.
pub type Decoded = Result<Place, Refusal>;

// What a step is answered: done with a value (0 for a write or an event), or refused.
pub type Answer = Result<u32, Refusal>;

// A state of an interrupt that a written 1 switches on or off.
#[derive(Clone, Copy)]
pub enum Switch {
    Enable,
    Pending,
    Active,
}

// What only the Secure side reads and writes.
#[derive(Clone, Copy)]
pub enum Guard {
    Group,
    Modifier,
}

// What the digits of a family are.
#[derive(Clone, Copy)]
pub enum Kind {
    // A written 1 switches the state on (true) or off, a 0 does nothing.
    Switched(bool, Switch),
    // The stored bit.
    Guarded(Guard),
    // Edge or level.
    Trigger,
}

// A family's row of document 01's table.
#[derive(Clone, Copy)]
pub struct Row {
    // What its digits are, how many bits each has, and how many a word has.
    pub kind: Kind,
    pub bits: u32,
    pub per: u32,
    // Offset and number of its words in the Distributor frame, and of its extended ones.
    pub base: u32,
    pub words: u32,
    pub extended: u32,
    pub extras: u32,
    // How many words the Redistributor has, from the first of these offsets on.
    pub redist: u32,
}

// The INTIDs that a register word has a digit of, interrupts of its frame: digit x is INTID first + x.
#[derive(Clone, Copy)]
pub struct Window {
    pub frame: Frame,
    pub family: Family,
    pub first: u32,
    pub count: u32,
}

// What a place stands for: digits of interrupts, TYPER, or a message register.
#[derive(Clone, Copy)]
pub enum Target {
    Digits(Window),
    Typer,
    Message(Message),
}

// A wire goes to a level; a side activates or deactivates.
#[derive(Clone, Copy)]
pub enum Event {
    Wire(bool),
    Activate(Side),
    Deactivate(Side),
}

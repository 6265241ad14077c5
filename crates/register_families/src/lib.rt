// The register families. Each is a type that carries its own numbers, here and nowhere else; what eight of them share is `ONE_BIT`.
#![tactic(auto, unfolding(meaning::specs::Registers::row_of))]

ghost use Rattle.std.specs.Prelude.{◌≡◌};
ghost use Rattle.types.specs.declared.Family.{Family};
ghost use Rattle.types.specs.declared.Row.{Row};
ghost use Rattle.meaning.specs.Registers.{row_of};

use types::{Family, Guard, Kind, Row, Switch};

// What each family carries. Each impl is proved to have the meaning's row.
pub trait Register {
    ghost ROW: { Row };

    // Offset of word 0, the same in the Distributor and the Redistributor frame.
    const BASE: u32;

    // Offset of extended word 0 in the Distributor frame.
    const EXTENDED: u32;

    // Its row of document 01's table: both offsets, what its digits are, and how many bits, digits and words there are of them.
    const ROW: Row;
}

// What the families with one bit for each interrupt share; the kind and the offsets are each family's own. Not values that the trait
// provides, since a proof knows those of no impl.
const ONE_BIT: Row = Row {
    kind: Kind::Trigger,
    bits: 1,
    per: 32,
    base: 0,
    words: 32,
    extended: 0,
    extras: 32,
    redist: 3,
};

// The group bit of each interrupt.
#[derive(Drop)]
pub struct Igroupr;

impl Register for Igroupr {
    ghost ROW = { row_of Family.Igroupr };

    const BASE: u32 = 0x080;

    const EXTENDED: u32 = 0x1000;

    const ROW: Row = Row {
        kind: Kind::Guarded(Guard::Group),
        base: Self::BASE,
        extended: Self::EXTENDED,
        ..ONE_BIT
    };
}

// Sets enables.
#[derive(Drop)]
pub struct Isenabler;

impl Register for Isenabler {
    ghost ROW = { row_of Family.Isenabler };

    const BASE: u32 = 0x100;

    const EXTENDED: u32 = 0x1200;

    const ROW: Row = Row {
        kind: Kind::Switched(true, Switch::Enable),
        base: Self::BASE,
        extended: Self::EXTENDED,
        ..ONE_BIT
    };
}

// Clears enables.
#[derive(Drop)]
pub struct Icenabler;

impl Register for Icenabler {
    ghost ROW = { row_of Family.Icenabler };

    const BASE: u32 = 0x180;

    const EXTENDED: u32 = 0x1400;

    const ROW: Row = Row {
        kind: Kind::Switched(false, Switch::Enable),
        base: Self::BASE,
        extended: Self::EXTENDED,
        ..ONE_BIT
    };
}

// Sets pending.
#[derive(Drop)]
pub struct Ispendr;

impl Register for Ispendr {
    ghost ROW = { row_of Family.Ispendr };

    const BASE: u32 = 0x200;

    const EXTENDED: u32 = 0x1600;

    const ROW: Row = Row {
        kind: Kind::Switched(true, Switch::Pending),
        base: Self::BASE,
        extended: Self::EXTENDED,
        ..ONE_BIT
    };
}

// Clears pending.
#[derive(Drop)]
pub struct Icpendr;

impl Register for Icpendr {
    ghost ROW = { row_of Family.Icpendr };

    const BASE: u32 = 0x280;

    const EXTENDED: u32 = 0x1800;

    const ROW: Row = Row {
        kind: Kind::Switched(false, Switch::Pending),
        base: Self::BASE,
        extended: Self::EXTENDED,
        ..ONE_BIT
    };
}

// Sets active.
#[derive(Drop)]
pub struct Isactiver;

impl Register for Isactiver {
    ghost ROW = { row_of Family.Isactiver };

    const BASE: u32 = 0x300;

    const EXTENDED: u32 = 0x1A00;

    const ROW: Row = Row {
        kind: Kind::Switched(true, Switch::Active),
        base: Self::BASE,
        extended: Self::EXTENDED,
        ..ONE_BIT
    };
}

// Clears active.
#[derive(Drop)]
pub struct Icactiver;

impl Register for Icactiver {
    ghost ROW = { row_of Family.Icactiver };

    const BASE: u32 = 0x380;

    const EXTENDED: u32 = 0x1C00;

    const ROW: Row = Row {
        kind: Kind::Switched(false, Switch::Active),
        base: Self::BASE,
        extended: Self::EXTENDED,
        ..ONE_BIT
    };
}

// The group modifier bit of each interrupt.
#[derive(Drop)]
pub struct Igrpmodr;

impl Register for Igrpmodr {
    ghost ROW = { row_of Family.Igrpmodr };

    const BASE: u32 = 0xD00;

    const EXTENDED: u32 = 0x3400;

    const ROW: Row = Row {
        kind: Kind::Guarded(Guard::Modifier),
        base: Self::BASE,
        extended: Self::EXTENDED,
        ..ONE_BIT
    };
}

// The trigger of each interrupt, two bits each.
#[derive(Drop)]
pub struct Icfgr;

impl Register for Icfgr {
    ghost ROW = { row_of Family.Icfgr };

    const BASE: u32 = 0xC00;

    const EXTENDED: u32 = 0x3000;

    const ROW: Row = Row {
        kind: Kind::Trigger,
        bits: 2,
        per: 16,
        base: Self::BASE,
        words: 64,
        extended: Self::EXTENDED,
        extras: 64,
        redist: 6,
    };
}

// A family's row of document 01's table.
pub fn row_of(f: Family) -> Row
    ensures { result ≡ row_of f }
{
    match f {
        Family::Igroupr => Igroupr::ROW,
        Family::Isenabler => Isenabler::ROW,
        Family::Icenabler => Icenabler::ROW,
        Family::Ispendr => Ispendr::ROW,
        Family::Icpendr => Icpendr::ROW,
        Family::Isactiver => Isactiver::ROW,
        Family::Icactiver => Icactiver::ROW,
        Family::Igrpmodr => Igrpmodr::ROW,
        Family::Icfgr => Icfgr::ROW,
    }
}

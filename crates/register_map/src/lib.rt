// The register map of the first 4 KiB of the Distributor frame: for each 4-byte word its entry, or none.
#![tactic(auto)]

ghost use Rattle.std.specs.Prelude.{◌≡◌, ◌<◌};
ghost use Rattle.register_map.specs.Map.{entry_at};

use types::{Family, Message};

// What stands at a word: one of a family's words, a message register, or TYPER.
#[derive(Clone, Copy)]
pub enum Entry {
    Register(Family),
    Message(Message),
    Typer,
}

const IGROUPR: Option<Entry> = Some(Entry::Register(Family::Igroupr));

const ISENABLER: Option<Entry> = Some(Entry::Register(Family::Isenabler));

const ICENABLER: Option<Entry> = Some(Entry::Register(Family::Icenabler));

const ISPENDR: Option<Entry> = Some(Entry::Register(Family::Ispendr));

const ICPENDR: Option<Entry> = Some(Entry::Register(Family::Icpendr));

const ISACTIVER: Option<Entry> = Some(Entry::Register(Family::Isactiver));

const ICACTIVER: Option<Entry> = Some(Entry::Register(Family::Icactiver));

const IGRPMODR: Option<Entry> = Some(Entry::Register(Family::Igrpmodr));

const ICFGR: Option<Entry> = Some(Entry::Register(Family::Icfgr));

const TYPER: Option<Entry> = Some(Entry::Typer);

const SETSPI_NSR: Option<Entry> = Some(Entry::Message(Message::SetspiNsr));

const CLRSPI_NSR: Option<Entry> = Some(Entry::Message(Message::ClrspiNsr));

const SETSPI_SR: Option<Entry> = Some(Entry::Message(Message::SetspiSr));

const CLRSPI_SR: Option<Entry> = Some(Entry::Message(Message::ClrspiSr));

// A static, since a function that read a constant would have its 1,024 entries as locals.
static MAP: [Option<Entry>; 1024] = [
    None, // 0x000: none
    TYPER, // 0x004: TYPER
    None, // 0x008: none
    None, None, None, None, None, None, None, None, None, None, None, None, None, SETSPI_NSR, // 0x040: SETSPI_NSR
    None, // 0x044: none
    CLRSPI_NSR, // 0x048: CLRSPI_NSR
    None, // 0x04C: none
    SETSPI_SR, // 0x050: SETSPI_SR
    None, // 0x054: none
    CLRSPI_SR, // 0x058: CLRSPI_SR
    None, // 0x05C: none
    None, None, None, None, None, None, None, None, IGROUPR, // 0x080: IGROUPR
    IGROUPR, IGROUPR, IGROUPR, IGROUPR, IGROUPR, IGROUPR, IGROUPR, IGROUPR, IGROUPR, IGROUPR,
    IGROUPR, IGROUPR, IGROUPR, IGROUPR, IGROUPR, IGROUPR, IGROUPR, IGROUPR, IGROUPR, IGROUPR,
    IGROUPR, IGROUPR, IGROUPR, IGROUPR, IGROUPR, IGROUPR, IGROUPR, IGROUPR, IGROUPR, IGROUPR,
    IGROUPR, ISENABLER, // 0x100: ISENABLER
    ISENABLER, ISENABLER, ISENABLER, ISENABLER, ISENABLER, ISENABLER, ISENABLER, ISENABLER,
    ISENABLER, ISENABLER, ISENABLER, ISENABLER, ISENABLER, ISENABLER, ISENABLER, ISENABLER,
    ISENABLER, ISENABLER, ISENABLER, ISENABLER, ISENABLER, ISENABLER, ISENABLER, ISENABLER,
    ISENABLER, ISENABLER, ISENABLER, ISENABLER, ISENABLER, ISENABLER, ISENABLER, ICENABLER, // 0x180: ICENABLER
    ICENABLER, ICENABLER, ICENABLER, ICENABLER, ICENABLER, ICENABLER, ICENABLER, ICENABLER,
    ICENABLER, ICENABLER, ICENABLER, ICENABLER, ICENABLER, ICENABLER, ICENABLER, ICENABLER,
    ICENABLER, ICENABLER, ICENABLER, ICENABLER, ICENABLER, ICENABLER, ICENABLER, ICENABLER,
    ICENABLER, ICENABLER, ICENABLER, ICENABLER, ICENABLER, ICENABLER, ICENABLER, ISPENDR, // 0x200: ISPENDR
    ISPENDR, ISPENDR, ISPENDR, ISPENDR, ISPENDR, ISPENDR, ISPENDR, ISPENDR, ISPENDR, ISPENDR,
    ISPENDR, ISPENDR, ISPENDR, ISPENDR, ISPENDR, ISPENDR, ISPENDR, ISPENDR, ISPENDR, ISPENDR,
    ISPENDR, ISPENDR, ISPENDR, ISPENDR, ISPENDR, ISPENDR, ISPENDR, ISPENDR, ISPENDR, ISPENDR,
    ISPENDR, ICPENDR, // 0x280: ICPENDR
    ICPENDR, ICPENDR, ICPENDR, ICPENDR, ICPENDR, ICPENDR, ICPENDR, ICPENDR, ICPENDR, ICPENDR,
    ICPENDR, ICPENDR, ICPENDR, ICPENDR, ICPENDR, ICPENDR, ICPENDR, ICPENDR, ICPENDR, ICPENDR,
    ICPENDR, ICPENDR, ICPENDR, ICPENDR, ICPENDR, ICPENDR, ICPENDR, ICPENDR, ICPENDR, ICPENDR,
    ICPENDR, ISACTIVER, // 0x300: ISACTIVER
    ISACTIVER, ISACTIVER, ISACTIVER, ISACTIVER, ISACTIVER, ISACTIVER, ISACTIVER, ISACTIVER,
    ISACTIVER, ISACTIVER, ISACTIVER, ISACTIVER, ISACTIVER, ISACTIVER, ISACTIVER, ISACTIVER,
    ISACTIVER, ISACTIVER, ISACTIVER, ISACTIVER, ISACTIVER, ISACTIVER, ISACTIVER, ISACTIVER,
    ISACTIVER, ISACTIVER, ISACTIVER, ISACTIVER, ISACTIVER, ISACTIVER, ISACTIVER, ICACTIVER, // 0x380: ICACTIVER
    ICACTIVER, ICACTIVER, ICACTIVER, ICACTIVER, ICACTIVER, ICACTIVER, ICACTIVER, ICACTIVER,
    ICACTIVER, ICACTIVER, ICACTIVER, ICACTIVER, ICACTIVER, ICACTIVER, ICACTIVER, ICACTIVER,
    ICACTIVER, ICACTIVER, ICACTIVER, ICACTIVER, ICACTIVER, ICACTIVER, ICACTIVER, ICACTIVER,
    ICACTIVER, ICACTIVER, ICACTIVER, ICACTIVER, ICACTIVER, ICACTIVER, ICACTIVER, None, // 0x400: none
    None, None, None, None, None, None, None, None, None, None, None, None, None, None, None, None,
    None, None, None, None, None, None, None, None, None, None, None, None, None, None, None, None,
    None, None, None, None, None, None, None, None, None, None, None, None, None, None, None, None,
    None, None, None, None, None, None, None, None, None, None, None, None, None, None, None, None,
    None, None, None, None, None, None, None, None, None, None, None, None, None, None, None, None,
    None, None, None, None, None, None, None, None, None, None, None, None, None, None, None, None,
    None, None, None, None, None, None, None, None, None, None, None, None, None, None, None, None,
    None, None, None, None, None, None, None, None, None, None, None, None, None, None, None, None,
    None, None, None, None, None, None, None, None, None, None, None, None, None, None, None, None,
    None, None, None, None, None, None, None, None, None, None, None, None, None, None, None, None,
    None, None, None, None, None, None, None, None, None, None, None, None, None, None, None, None,
    None, None, None, None, None, None, None, None, None, None, None, None, None, None, None, None,
    None, None, None, None, None, None, None, None, None, None, None, None, None, None, None, None,
    None, None, None, None, None, None, None, None, None, None, None, None, None, None, None, None,
    None, None, None, None, None, None, None, None, None, None, None, None, None, None, None, None,
    None, None, None, None, None, None, None, None, None, None, None, None, None, None, None, None,
    None, None, None, None, None, None, None, None, None, None, None, None, None, None, None, None,
    None, None, None, None, None, None, None, None, None, None, None, None, None, None, None, None,
    None, None, None, None, None, None, None, None, None, None, None, None, None, None, None, None,
    None, None, None, None, None, None, None, None, None, None, None, None, None, None, None, None,
    None, None, None, None, None, None, None, None, None, None, None, None, None, None, None, None,
    None, None, None, None, None, None, None, None, None, None, None, None, None, None, None, None,
    None, None, None, None, None, None, None, None, None, None, None, None, None, None, None, None,
    None, None, None, None, None, None, None, None, None, None, None, None, None, None, None, None,
    None, None, None, None, None, None, None, None, None, None, None, None, None, None, None, None,
    None, None, None, None, None, None, None, None, None, None, None, None, None, None, None, None,
    None, None, None, None, None, None, None, None, None, None, None, None, None, None, None, None,
    None, None, None, None, None, None, None, None, None, None, None, None, None, None, None, None,
    None, None, None, None, None, None, None, None, None, None, None, None, None, None, None, None,
    None, None, None, None, None, None, None, None, None, None, None, None, None, None, None, None,
    None, None, None, None, None, None, None, None, None, None, None, None, None, None, None, None,
    None, None, None, None, None, None, None, None, None, None, None, None, None, None, None,
    ICFGR, // 0xC00: ICFGR
    ICFGR, ICFGR, ICFGR, ICFGR, ICFGR, ICFGR, ICFGR, ICFGR, ICFGR, ICFGR, ICFGR, ICFGR, ICFGR,
    ICFGR, ICFGR, ICFGR, ICFGR, ICFGR, ICFGR, ICFGR, ICFGR, ICFGR, ICFGR, ICFGR, ICFGR, ICFGR,
    ICFGR, ICFGR, ICFGR, ICFGR, ICFGR, ICFGR, ICFGR, ICFGR, ICFGR, ICFGR, ICFGR, ICFGR, ICFGR,
    ICFGR, ICFGR, ICFGR, ICFGR, ICFGR, ICFGR, ICFGR, ICFGR, ICFGR, ICFGR, ICFGR, ICFGR, ICFGR,
    ICFGR, ICFGR, ICFGR, ICFGR, ICFGR, ICFGR, ICFGR, ICFGR, ICFGR, ICFGR, ICFGR, IGRPMODR, // 0xD00: IGRPMODR
    IGRPMODR, IGRPMODR, IGRPMODR, IGRPMODR, IGRPMODR, IGRPMODR, IGRPMODR, IGRPMODR, IGRPMODR,
    IGRPMODR, IGRPMODR, IGRPMODR, IGRPMODR, IGRPMODR, IGRPMODR, IGRPMODR, IGRPMODR, IGRPMODR,
    IGRPMODR, IGRPMODR, IGRPMODR, IGRPMODR, IGRPMODR, IGRPMODR, IGRPMODR, IGRPMODR, IGRPMODR,
    IGRPMODR, IGRPMODR, IGRPMODR, IGRPMODR, None, // 0xD80: none
    None, None, None, None, None, None, None, None, None, None, None, None, None, None, None, None,
    None, None, None, None, None, None, None, None, None, None, None, None, None, None, None, None,
    None, None, None, None, None, None, None, None, None, None, None, None, None, None, None, None,
    None, None, None, None, None, None, None, None, None, None, None, None, None, None, None, None,
    None, None, None, None, None, None, None, None, None, None, None, None, None, None, None, None,
    None, None, None, None, None, None, None, None, None, None, None, None, None, None, None, None,
    None, None, None, None, None, None, None, None, None, None, None, None, None, None, None, None,
    None, None, None, None, None, None, None, None, None, None, None, None, None, None, None, None,
    None, None, None, None, None, None, None, None, None, None, None, None, None, None, None, None,
    None, None, None, None, None, None, None, None, None, None, None, None, None, None, None,
];

pub fn entry_at(word: usize) -> Option<Entry>
    requires { word < 1024 }
    ensures { result ≡ entry_at word }
{
    MAP[word]
}

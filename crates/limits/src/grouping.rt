// Document 02, CR 2: an interrupt is Non-secure exactly when group is 1, whatever the modifier. Each case is a record of SPI 300, which
// is bit 12 of word 9, and what is asked then; all other records are 0. 192 is both bits, 64 group and 128 modifier alone.
use crate::asked::{Machine, Said};
use std::{fmt, io};
use types::{Access, Event, Frame, Side};

// A register word of the Distributor.
#[derive(Clone, Copy)]
struct Register {
    name: &'static str,
    offset: u32,
}

const IGROUPR9: Register = Register {
    name: "IGROUPR9",
    offset: 0x0A4,
};

const ISENABLER9: Register = Register {
    name: "ISENABLER9",
    offset: 0x124,
};

const ISPENDR9: Register = Register {
    name: "ISPENDR9",
    offset: 0x224,
};

const ISACTIVER9: Register = Register {
    name: "ISACTIVER9",
    offset: 0x324,
};

const IGRPMODR9: Register = Register {
    name: "IGRPMODR9",
    offset: 0xD24,
};

// A side, as written.
#[derive(Clone, Copy)]
struct Named(Side);

impl fmt::Display for Named {
    fn fmt<W: fmt::Write>(&self, f: &mut fmt::Formatter<W>) -> fmt::Result {
        f.write_str(match self.0 {
            Side::Secure => "Secure",
            Side::NonSecure => "Non-secure",
        })
    }
}

impl Register {
    fn read(self, machine: &mut Machine, side: Side) -> Said {
        machine.access(Access::read(Frame::Dist, side, 4, self.offset))
    }

    fn write(self, machine: &mut Machine, side: Side, value: u32) -> Said {
        machine.access(Access::write(Frame::Dist, side, 4, self.offset, value))
    }
}

// What a side reads.
fn shown(rt: &impl Print, record: u8, side: Side, register: Register) -> io::Result<()> {
    let name = register.name;
    let answer = register.read(&mut Machine::with_record(record), side);
    println!(rt; "record={record} {} reads {name}{answer}", Named(side))
}

// What the Non-secure side then reads.
fn then(rt: &impl Print, machine: &mut Machine, register: Register) -> io::Result<()> {
    let name = register.name;
    let answer = register.read(machine, Side::NonSecure);
    println!(rt; "then Non-secure reads {name}{answer}")
}

// The Non-secure side writes 300's bit, and what it then reads.
fn set(rt: &impl Print, record: u8, register: Register) -> io::Result<()> {
    let name = register.name;
    let mut machine = Machine::with_record(record);
    let answer = register.write(&mut machine, Side::NonSecure, 4096);
    println!(rt; "record={record} Non-secure writes {name}{answer}")?;
    then(rt, &mut machine, register)
}

// The Secure side writes one of the two bits; 300 is enabled. What the Non-secure side then reads. Not one function with `set`: what
// is printed differs, and so does what is read.
fn regroup(rt: &impl Print, record: u8, register: Register, value: u32) -> io::Result<()> {
    let name = register.name;
    let mut machine = Machine::with_record(record);
    let answer = register.write(&mut machine, Side::Secure, value);
    println!(rt; "record={record} Secure writes {name} with {value}{answer}")?;
    then(rt, &mut machine, ISENABLER9)
}

// The Non-secure side activates or deactivates 300, and what it then reads. `does` says it: a text of an Event would need
// words for wires too.
fn happened(rt: &impl Print, record: u8, does: &str, what: Event) -> io::Result<()> {
    let mut machine = Machine::with_record(record);
    let answer = machine.event(300, what);
    println!(rt; "record={record} Non-secure {does} 300{answer}")?;
    then(rt, &mut machine, ISACTIVER9)
}

pub fn run(rt: &impl Print) -> io::Result<()> {
    // The stored bits read back to the Secure side, and to no other.
    shown(rt, 192, Side::Secure, IGROUPR9)?;
    shown(rt, 192, Side::Secure, IGRPMODR9)?;
    shown(rt, 192, Side::NonSecure, IGROUPR9)?;
    shown(rt, 192, Side::NonSecure, IGRPMODR9)?;
    set(rt, 192, ISENABLER9)?;
    set(rt, 192, ISPENDR9)?;
    set(rt, 128, ISPENDR9)?;
    let activate = Event::Activate(Side::NonSecure);
    happened(rt, 195, "activates", activate)?;
    happened(rt, 131, "activates", activate)?;
    let deactivate = Event::Deactivate(Side::NonSecure);
    happened(rt, 209, "deactivates", deactivate)?;
    happened(rt, 145, "deactivates", deactivate)?;
    regroup(rt, 193, IGRPMODR9, 0)?;
    regroup(rt, 65, IGRPMODR9, 4096)?;
    regroup(rt, 193, IGROUPR9, 0)
}

// Several requests on the same tables, and tables of a wrong length. Records are 0 and every interrupt is present.
use crate::asked::{ALL, BENCH, Built, Machine, Said};
use controller::Controller;
use std::io;
use types::{Access, Event, Frame, Shape, Side};

// A write of SETSPI_SR at width 2, and then a read of ISPENDR9, the word of INTIDs 288 to 319, both by the Secure side.
fn send(rt: &impl Print, machine: &mut Machine, value: u32) -> io::Result<()> {
    let answer = machine.access(Access::write(Frame::Dist, Side::Secure, 2, 0x50, value));
    println!(rt; "message value={value}{answer}")?;
    pending(rt, machine)
}

fn pending(rt: &impl Print, machine: &mut Machine) -> io::Result<()> {
    let answer = machine.access(Access::read(Frame::Dist, Side::Secure, 4, 0x224));
    println!(rt; "ISPENDR9{answer}")
}

// A message, and what is pending then.
fn message(rt: &impl Print, mbis: bool, value: u32) -> io::Result<()> {
    let shape = Shape { mbis, ..BENCH };
    send(rt, &mut Machine::new(shape, ALL), value)
}

// A message to 300, which is Secure and not enabled: who activates it then, and what is pending after a reset.
fn taken(rt: &impl Print, value: u32) -> io::Result<()> {
    let mut machine = Machine::new(BENCH, ALL);
    send(rt, &mut machine, value)?;
    let answer = machine.event(300, Event::Activate(Side::Secure));
    println!(rt; "activate by the Secure side, not enabled{answer}")?;
    let answer = machine.event(300, Event::Activate(Side::NonSecure));
    println!(rt; "activate by the Non-secure side{answer}")?;
    let answer = machine.reset();
    println!(rt; "reset{answer}")?;
    pending(rt, &mut machine)
}

// None without mbis; an INTID that is no SPI is ignored; so are the upper half of a halfword and value bits above 12.
pub fn run(rt: &impl Print) -> io::Result<()> {
    message(rt, false, 300)?;
    message(rt, true, 16)?;
    message(rt, true, 1020)?;
    taken(rt, 0x10000 + 8492)
}

// A wire that goes low, with the bench shape, on tables of any length: no machine, since its arrays have the right ones.
fn wire(
    rt: &impl Print,
    dist: &mut [u8],
    redist: &mut [u8],
    dist_presence: &[u32],
    redist_presence: &[u32],
) -> io::Result<()> {
    let mut controller = Controller {
        dist,
        redist,
        dist_presence,
        redist_presence,
        shape: BENCH,
    };
    let answer = Said(controller.event(319, Event::Wire(false)));
    println!(rt; "wire{} intid=319{answer}", Built(BENCH))
}

// Tables of a wrong length: each of the four.
pub fn lengths(rt: &impl Print) -> io::Result<()> {
    let mut dist = [0u8; 2012];
    let mut redist = [0u8; 96];
    let dist_presence = [ALL; 63];
    let redist_presence = [ALL; 3];
    let mut few = [0u8; 95];
    wire(rt, &mut few, &mut redist, &dist_presence, &redist_presence)?;
    wire(rt, &mut dist, &mut few, &dist_presence, &redist_presence)?;
    wire(
        rt,
        &mut dist,
        &mut redist,
        &redist_presence,
        &redist_presence,
    )?;
    wire(rt, &mut dist, &mut redist, &dist_presence, &dist_presence)
}

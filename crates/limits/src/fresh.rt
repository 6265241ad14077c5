// Single requests, each on tables of its own.
use crate::asked::{ALL, BENCH, Built, FEWER, Machine};
use std::io;
use types::{Access, Event, Frame, Shape, Side};

// A wire that goes low; `present` is each word of presence.
pub fn wire(rt: &impl Print, shape: Shape, present: u32, intid: u32) -> io::Result<()> {
    let answer = Machine::new(shape, present).event(intid, Event::Wire(false));
    println!(rt; "wire{} intid={intid}{answer}", Built(shape))
}

// The same for each of these INTIDs.
pub fn wires(rt: &impl Print, shape: Shape, present: u32, intids: &[u32]) -> io::Result<()> {
    for intid in intids {
        wire(rt, shape, present, *intid)?;
    }
    Ok(())
}

// A read of the Non-secure side, with the bench shape.
fn read(rt: &impl Print, frame: Frame, width: u32, offset: u32) -> io::Result<()> {
    let request = Access::read(frame, Side::NonSecure, width, offset);
    let answer = Machine::new(BENCH, ALL).access(request);
    println!(rt;
        "read frame={} width={width} offset={offset}{answer}",
        frame as u32
    )
}

// The same for each width and offset.
pub fn reads(rt: &impl Print, frame: Frame, rows: &[(u32, u32)]) -> io::Result<()> {
    for (width, offset) in rows {
        read(rt, frame, *width, *offset)?;
    }
    Ok(())
}

// ICFGR0, the first interrupt of each word missing.
pub fn fewer_edges(rt: &impl Print, label: &str, side: Side) -> io::Result<()> {
    let request = Access::read(Frame::Redist, side, 4, 0xC00);
    let answer = Machine::new(BENCH, FEWER).access(request);
    println!(rt; "{label}{answer}")
}

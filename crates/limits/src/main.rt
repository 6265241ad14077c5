// Document 01's "Limits" line and more edges, and the cases of document 02's requests, run on the compiled controller. Each line says
// the request and its answer. The expected output (stdout) is written from the two documents and not from this program.
#![tactic(auto)]

use asked::{ALL, BENCH, FEWER};
use std::io;
use types::{Frame, Shape, Side};

mod asked;
mod fresh;
mod grouping;
mod lent;

// Wires that go low. What a shape brings, and what is one past it.
fn ranges(rt: &impl Print) -> io::Result<()> {
    fresh::wires(
        rt,
        BENCH,
        ALL,
        &[319, 320, 4223, 4224, 1087, 1088, 65836, 4294967295, 15, 16],
    )?;
    fresh::wires(
        rt,
        Shape::new(31, 32, 2, true),
        ALL,
        &[1019, 1020, 1055, 1119, 1120, 4095, 5119, 5120],
    )?;
    fresh::wires(rt, Shape::new(0, 0, 0, true), ALL, &[31, 32, 1056, 4096])
}

// Shape numbers off their limits: lines, espi, eppi.
fn off(rt: &impl Print) -> io::Result<()> {
    for (lines, espi, eppi) in [
        (32, 4, 1),
        (9, 33, 1),
        (9, 4, 3),
        (4294967295, 4, 1),
        (9, 4294967295, 1),
        (9, 4, 4294967295),
    ] {
        fresh::wire(rt, Shape::new(lines, espi, eppi, true), ALL, 319)?;
    }
    Ok(())
}

// Non-secure reads: width, offset.
fn reads(rt: &impl Print) -> io::Result<()> {
    fresh::reads(
        rt,
        Frame::Dist,
        &[
            (2, 0x40),
            (2, 0x42),
            (2, 0x224),
            (1, 0x40),
            (1, 0x224),
            (4, 0x226),
            (4, 0x10000),
            (4, 0x0000),
            (4, 0xFFFC),
            (4, 0x10001),
            (3, 0x10001),
            (2, 0x41),
            (2, 0x44),
            (2, 0x004),
            (4, 0x004),
            (4294967295, 0),
            (4, 4294967292),
        ],
    )?;
    fresh::reads(
        rt,
        Frame::Redist,
        &[(2, 0x40), (2, 0x80), (4, 0x08C), (4, 0xC14), (4, 0xC18)],
    )
}

// An SGI and an SPI whose presence bits are 0 are missing. The Secure side reads the other SGIs as edge.
fn missing(rt: &impl Print) -> io::Result<()> {
    fresh::wires(rt, BENCH, FEWER, &[0, 1, 32])?;
    fresh::fewer_edges(rt, "ICFGR0", Side::Secure)?;
    fresh::fewer_edges(rt, "ICFGR0 for the Non-secure side", Side::NonSecure)
}

fn main(rt: HostRuntime) -> io::Result<()> {
    ranges(&rt)?;
    off(&rt)?;
    reads(&rt)?;
    lent::run(&rt)?;
    lent::lengths(&rt)?;
    missing(&rt)?;
    grouping::run(&rt)
}

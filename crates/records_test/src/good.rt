// The specification's sums on records, and other records that are good. A read's bits are those of
// Perfect, Forward, with-N and pos_t.
use crate::show::{show, show_at};
use records::Bits;
use std::io;

// The bits of a read.
pub fn bits(perfect: bool, forward: bool, with_n: bool, step: bool) -> Bits {
    Bits {
        perfect,
        forward,
        with_n,
        step,
    }
}

// A perfect read on the forward strand.
pub fn perfect() -> Bits {
    bits(true, true, false, false)
}

// The same with an N list.
pub fn perfect_n() -> Bits {
    bits(true, true, true, false)
}

// The same with a step for its position.
pub fn perfect_step() -> Bits {
    bits(true, true, false, true)
}

// Only the Forward bit.
pub fn forward() -> Bits {
    bits(false, true, false, false)
}

// A global or local read on the forward strand, with a step for its position.
fn global_step() -> Bits {
    bits(false, true, false, true)
}

// No bit: a global or local read on the reverse strand, or a raw kind.
pub fn none() -> Bits {
    bits(false, false, false, false)
}

// Only the with-N bit.
pub fn only_n() -> Bits {
    bits(false, false, true, false)
}

// The rows of "Sums done by hand".
pub fn run_sums(rt: &impl Print) -> io::Result<()> {
    show(rt, b"row 1", b"\x04\x00\x00\x00", perfect(), 4)?;
    show(rt, b"row 2", b"\x04\x00", perfect_step(), 4)?;
    show(rt, b"row 3", b"\x09\x00\x00\x00", perfect(), 4)?;
    show(rt, b"row 3 with 08", b"\x08\x00\x00\x00", perfect(), 4)?;
    show(
        rt,
        b"row 4",
        b"\x06\x00\x00\x00",
        bits(true, false, false, false),
        4,
    )?;
    show(rt, b"row 5", b"\x0c\x00\x00\x00\x00\x0b", forward(), 4)?;
    show(rt, b"row 6", b"\x0c\x00\x00\x00\x00\x0a", forward(), 4)?;
    show(
        rt,
        b"row 7",
        b"\x00\x00\x00\x00\x00\x01\x01\xc0",
        forward(),
        5,
    )?;
    show(
        rt,
        b"row 7 ending c1",
        b"\x00\x00\x00\x00\x00\x01\x01\xc1",
        forward(),
        5,
    )?;
    show(rt, b"row 8", b"\x02\x8f\x00", none(), 5)?;
    show(rt, b"row 9", b"\x01\x40\x10", only_n(), 3)?;
    show(
        rt,
        b"row 10",
        b"\x00\x00\x00\x00\x02\x01\x00\x02\x00",
        perfect_n(),
        4,
    )?;
    show(
        rt,
        b"row 10, last word 0",
        b"\x00\x00\x00\x00\x02\x01\x00\x00\x00",
        perfect_n(),
        4,
    )
}

// Placed records.
pub fn run_placed(rt: &impl Print) -> io::Result<()> {
    show(rt, b"whole reference", b"\x00\x00\x00\x00", perfect(), 12)?;
    show(
        rt,
        b"whole reverse",
        b"\x00\x00\x00\x00",
        bits(true, false, false, false),
        12,
    )?;
    show(
        rt,
        b"entry on letter 0",
        b"\x0c\x00\x00\x00\x00\x03",
        forward(),
        4,
    )?;
    show(rt, b"reverse entry", b"\x0c\x06\x00\x00\x00\x03", none(), 4)?;
    show(
        rt,
        b"reverse filler",
        b"\x0c\x06\x00\x00\x00\x01",
        none(),
        4,
    )?;
    show(
        rt,
        b"two entries",
        b"\x14\x00\x00\x00\x00\x03\x0c",
        forward(),
        4,
    )?;
    show(
        rt,
        b"local entry",
        b"\x08\x00\x00\x00\x00\x0b\x01\x01\xc0",
        forward(),
        5,
    )?;
    show(
        rt,
        b"local at the end",
        b"\x00\x09\x00\x00\x00\x01\x01\xc0",
        forward(),
        5,
    )?;
    show(
        rt,
        b"reverse local",
        b"\x00\x08\x00\x00\x00\x01\x01\xc0",
        none(),
        5,
    )?;
    show(
        rt,
        b"reverse local, first base",
        b"\x00\x02\x00\x00\x00\x01\x01\xc0",
        none(),
        5,
    )?;
    show(
        rt,
        b"reverse local, last base",
        b"\x00\x0b\x00\x00\x00\x01\x01\xc0",
        none(),
        5,
    )?;
    show(
        rt,
        b"left alone",
        b"\x00\x00\x00\x00\x00\x02\x00\xe0",
        forward(),
        5,
    )
}

// N lists, raw kinds, and bytes after the record.
pub fn run_others(rt: &impl Print) -> io::Result<()> {
    show(
        rt,
        b"N on letter 0",
        b"\x00\x00\x00\x00\x01\x00\x00",
        perfect_n(),
        4,
    )?;
    show(
        rt,
        b"entry under N",
        b"\x0c\x00\x00\x00\x00\x0b\x01\x02\x00",
        bits(false, true, true, false),
        4,
    )?;
    show(rt, b"raw with N", b"\x02\x8f\x00\x01\x02\x00", only_n(), 5)?;
    show(rt, b"raw4 without N", b"\x01\x01\x20", none(), 3)?;
    show(rt, b"a byte after", b"\x04\x00\x00\x00\xff", perfect(), 4)
}

// Records at a place, and steps from a position before.
pub fn run_after(rt: &impl Print) -> io::Result<()> {
    show_at(
        rt,
        b"at byte 2",
        b"\xff\xff\x08\x00\x00\x00",
        2,
        perfect(),
        4,
        0,
    )?;
    show_at(rt, b"step from 6", b"\x02\x00", 0, perfect_step(), 4, 6)?;
    show_at(rt, b"step of 0", b"\x00\x00", 0, perfect_step(), 4, 8)?;
    show_at(
        rt,
        b"step past the end",
        b"\x03\x00",
        0,
        perfect_step(),
        4,
        6,
    )?;
    show_at(
        rt,
        b"step past 2 ^ 32",
        b"\x01\x00",
        0,
        perfect_step(),
        4,
        0xffff_ffff,
    )?;
    show_at(
        rt,
        b"global step",
        b"\xff\x0c\x02\x00\x0b",
        1,
        global_step(),
        4,
        2,
    )?;
    show_at(rt, b"no step", b"\x04\x00\x00\x00", 0, perfect(), 4, 6)?;
    show_at(rt, b"at the end", b"\x04\x00\x00\x00", 4, perfect(), 4, 0)
}

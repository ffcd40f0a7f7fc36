// Names that are written and read back as they were. Column 0 is of strings, r and r; the second
// column's type says how its numbers are written: 0 strings, 4, 3 and 5 steps of 8, 16 and 32 bits.
use crate::writing::{put_call, run_two, untouched_block};
use std::io;

pub fn run_round_trips(rt: &impl Print) -> io::Result<()> {
    run_strings(rt)?;
    run_digits(rt)?;
    run_narrow_steps(rt)?;
    run_wide_steps(rt)?;
    run_one_read(rt)?;
    run_no_reads(rt)
}

// Leading zeros survive, and a lone zero is a number. A falling column is of strings.
fn run_strings(rt: &impl Print) -> io::Result<()> {
    run_two(rt, b"leading zeros", b"r007r008", &[4u32, 8u32])?;
    run_two(rt, b"zeros", b"r00r00", &[3u32, 6u32])?;
    run_two(rt, b"a lone zero", b"r0r0", &[2u32, 4u32])?;
    run_two(rt, b"a falling column", b"r9r7", &[2u32, 4u32])?;
    run_two(rt, b"no digits", b"r/r.", &[2u32, 4u32])
}

// 18 digits are a number, 19 are not.
fn run_digits(rt: &impl Print) -> io::Result<()> {
    run_two(
        rt,
        b"18 digits",
        b"r999999999999999998r999999999999999999",
        &[19u32, 38u32],
    )?;
    run_two(
        rt,
        b"19 digits",
        b"r999999999999999999r1000000000000000000",
        &[19u32, 39u32],
    )
}

fn run_narrow_steps(rt: &impl Print) -> io::Result<()> {
    run_two(rt, b"step 255", b"r1r256", &[2u32, 6u32])?;
    run_two(rt, b"step 256", b"r1r257", &[2u32, 6u32])?;
    run_two(rt, b"step 65535", b"r1r65536", &[2u32, 8u32])?;
    run_two(rt, b"step 65536", b"r1r65537", &[2u32, 8u32])
}

fn run_wide_steps(rt: &impl Print) -> io::Result<()> {
    run_two(rt, b"step 2^32 - 1", b"r1r4294967296", &[2u32, 13u32])?;
    run_two(rt, b"step 2^32", b"r1r4294967297", &[2u32, 13u32])
}

// One read takes steps of 8 bits, of which there are none.
fn run_one_read(rt: &impl Print) -> io::Result<()> {
    let mut out = untouched_block();
    put_call(
        rt,
        b"one read",
        b"ACGT",
        &[4u32],
        b"5r",
        &[2u32],
        &[0u32],
        &[1u8],
        &[0u8],
        &mut out,
    )
}

// No reads: an empty section, and a block of 121 bytes.
fn run_no_reads(rt: &impl Print) -> io::Result<()> {
    let none = [0u32; 1];
    put_no_reads(rt, &none[..0])
}

fn put_no_reads(rt: &impl Print, none: &[u32]) -> io::Result<()> {
    let mut out = untouched_block();
    put_call(
        rt,
        b"no reads",
        b"",
        none,
        b"",
        none,
        none,
        b"",
        b"",
        &mut out,
    )
}

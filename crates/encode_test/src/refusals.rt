// Two reads under the reference ACGTACGTTGCA that are written, and for each number of refusal the
// same call with one thing wrong. The first read is perfect at 4, a step from 0; the second lies
// before it and so has a position of four bytes, and its third letter differs. The block takes 121
// bytes, a DNA section of 12, a names section of 35 and an N section of one. The names are r1 and
// r2: a count of 4 bytes, 2 types, 2 sizes of 8, the strings r and r, the number 1 and a step of 1.
use crate::show::{UNTOUCHED, show};
use std::io;

const BLOCK_LENGTH: usize = 169;

const TOO_MANY_READS: usize = 50_001;

pub fn run_refusals(rt: &impl Print) -> io::Result<()> {
    run_two(
        rt,
        b"two reads",
        12,
        b"ACGTACTT",
        &[4u32, 8u32],
        &[0u8, 0u8],
    )?;
    run_two(
        rt,
        b"13 bases in 3 bytes",
        13,
        b"ACGTACTT",
        &[4u32, 8u32],
        &[0u8, 0u8],
    )?;
    run_many(rt)?;
    run_two(
        rt,
        b"one right of two reads",
        12,
        b"ACGTACTT",
        &[4u32, 8u32],
        &[0u8],
    )?;
    run_two(
        rt,
        b"ends that do not rise",
        12,
        b"ACGTACTT",
        &[8u32, 8u32],
        &[0u8, 0u8],
    )?;
    run_two(
        rt,
        b"a letter after the last end",
        12,
        b"ACGTACTTA",
        &[4u32, 8u32],
        &[0u8, 0u8],
    )?;
    run_two(
        rt,
        b"a small letter",
        12,
        b"ACGTACtT",
        &[4u32, 8u32],
        &[0u8, 0u8],
    )?;
    run_short(rt)
}

// Positions, strands and lefts are those of the two reads.
fn run_two(
    rt: &impl Print,
    label: &[u8],
    bases: u64,
    letters: &[u8],
    ends: &[u32],
    rights: &[u8],
) -> io::Result<()> {
    let mut out = [UNTOUCHED; BLOCK_LENGTH];
    show(
        rt,
        label,
        bases,
        &[0x1b, 0x1b, 0xe4],
        letters,
        ends,
        b"r1r2",
        &[2u32, 4u32],
        &[4u32, 0u32],
        &[1u8, 1u8],
        &[0u8, 0u8],
        rights,
        &mut out,
    )
}

// A buffer of one byte less.
fn run_short(rt: &impl Print) -> io::Result<()> {
    let mut out = [UNTOUCHED; BLOCK_LENGTH - 1];
    show(
        rt,
        b"a byte of room missing",
        12,
        &[0x1b, 0x1b, 0xe4],
        b"ACGTACTT",
        &[4u32, 8u32],
        b"r1r2",
        &[2u32, 4u32],
        &[4u32, 0u32],
        &[1u8, 1u8],
        &[0u8, 0u8],
        &[0u8, 0u8],
        &mut out,
    )
}

// One read more than there may be.
fn run_many(rt: &impl Print) -> io::Result<()> {
    let ends = [0u32; TOO_MANY_READS];
    let mut out = [UNTOUCHED; BLOCK_LENGTH];
    show(
        rt,
        b"50001 reads",
        12,
        &[0x1b, 0x1b, 0xe4],
        b"ACGTACTT",
        &ends,
        b"r1r2",
        &[2u32, 4u32],
        &[4u32, 0u32],
        &[1u8, 1u8],
        &[0u8, 0u8],
        &[0u8, 0u8],
        &mut out,
    )
}

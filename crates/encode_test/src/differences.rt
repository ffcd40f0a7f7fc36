// The specification's sums on lone differences: a read of 2,000 letters A at the start of a
// reference of 2,000 bases A, with a C at one place. At 64 it takes a filler and the difference, at
// 127 two fillers, at 1953 thirty; at 1954 it would take 32 entries, and the read goes raw.
// The read's name, r, takes a names section of 15 bytes.
ghost use Rattle.std.specs.Prelude.{◌≡◌, length};

use crate::show::{UNTOUCHED, show};
use std::io;

const READ_LENGTH: usize = 2_000;

const REFERENCE_SIZE: usize = 500;

const MAX_BLOCK: usize = 656;

pub fn run_differences(rt: &impl Print) -> io::Result<()> {
    run_difference(rt, b"difference at 63", 63)?;
    run_difference(rt, b"difference at 64", 64)?;
    run_difference(rt, b"difference at 126", 126)?;
    run_difference(rt, b"difference at 127", 127)?;
    run_difference(rt, b"difference at 1953", 1953)?;
    run_difference(rt, b"difference at 1954", 1954)
}

fn run_difference(rt: &impl Print, label: &[u8], place: usize) -> io::Result<()> {
    let letters = letters_with(place);
    let mut out = untouched_block();
    show(
        rt,
        label,
        2_000,
        &bases_a(),
        &letters,
        &[2_000u32],
        b"r",
        &[1u32],
        &[0u32],
        &[1u8],
        &[0u8],
        &[0u8],
        &mut out,
    )
}

// The read with its difference; without one where the place is past its end.
fn letters_with(place: usize) -> [u8; READ_LENGTH]
    ensures { 2_000 ≡ length result }
{
    let mut letters = letters_a();
    if READ_LENGTH <= place {
        return letters;
    }
    letters[place] = b'C';
    letters
}

fn letters_a() -> [u8; READ_LENGTH]
    ensures { 2_000 ≡ length result }
{
    [b'A'; READ_LENGTH]
}

fn bases_a() -> [u8; REFERENCE_SIZE] {
    [0u8; REFERENCE_SIZE]
}

fn untouched_block() -> [u8; MAX_BLOCK] {
    [UNTOUCHED; MAX_BLOCK]
}

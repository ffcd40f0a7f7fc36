// Calls of the writer that earn 41, for two reads; the names r7 and r9 are good.
ghost use Rattle.std.specs.Prelude.{◌≡◌, length};

use crate::parts::first_bytes;
use crate::writing::{MAX_BLOCK, run_call, run_two};
use std::io;

// A name of 256 bytes, and one more of a byte.
const LONG_LENGTH: usize = 257;

pub fn run_name_faults(rt: &impl Print) -> io::Result<()> {
    run_counts(rt)?;
    run_ends(rt)?;
    run_lengths(rt)?;
    run_bytes(rt)?;
    run_orders(rt)
}

// Name ends that are not one a read.
fn run_counts(rt: &impl Print) -> io::Result<()> {
    run_two(rt, b"41 one name end", b"r7", &[2u32])?;
    run_two(rt, b"41 three name ends", b"r7r8r9", &[2u32, 4u32, 6u32])
}

// Ends that do not rise, or do not end with the names.
fn run_ends(rt: &impl Print) -> io::Result<()> {
    run_two(rt, b"41 an end twice", b"r7r9", &[4u32, 4u32])?;
    run_two(rt, b"41 an end that falls", b"r7r9", &[4u32, 2u32])?;
    run_two(rt, b"41 an empty name", b"r7r9", &[0u32, 4u32])?;
    run_two(rt, b"41 a byte after the last end", b"r7r9x", &[2u32, 4u32])?;
    run_two(rt, b"41 an end past the names", b"r7r9", &[2u32, 5u32])?;
    run_two(rt, b"41 no names", b"", &[2u32, 4u32])
}

// A name of 255 bytes is good, one of 256 is not.
fn run_lengths(rt: &impl Print) -> io::Result<()> {
    let names = long_names();
    run_two(
        rt,
        b"0 a name of 255 bytes",
        first_bytes(&names, 256),
        &[255u32, 256u32],
    )?;
    run_two(rt, b"41 a name of 256 bytes", &names, &[256u32, 257u32])
}

fn long_names() -> [u8; LONG_LENGTH]
    ensures { 257 ≡ length result }
{
    [b'r'; LONG_LENGTH]
}

// Bytes that no name has, and names of other token counts.
fn run_bytes(rt: &impl Print) -> io::Result<()> {
    run_two(rt, b"0 bytes 32 and 126", b" ~", &[1u32, 2u32])?;
    run_two(rt, b"41 byte 31", b"r\x1f", &[1u32, 2u32])?;
    run_two(rt, b"41 byte 127", b"\x7fr", &[1u32, 2u32])?;
    run_two(rt, b"41 token counts 2 and 1", b"r7r", &[2u32, 3u32])?;
    run_two(rt, b"41 token counts 1 and 3", b"rr7r", &[1u32, 4u32])?;
    run_two(rt, b"0 token counts 2 and 2", b"r77r", &[2u32, 4u32])
}

// 33 for a small letter; 34 for a block of 165 bytes in 164.
fn run_orders(rt: &impl Print) -> io::Result<()> {
    run_call(
        rt,
        b"33 before 41",
        b"ACGTACgT",
        b"r7r9",
        &[2u32],
        MAX_BLOCK,
    )?;
    run_call(rt, b"41 before 34", b"ACGTACGT", b"r7r9", &[2u32], 0)?;
    run_call(rt, b"34 room", b"ACGTACGT", b"r7r9", &[2u32, 4u32], 164)?;
    run_call(rt, b"0 room", b"ACGTACGT", b"r7r9", &[2u32, 4u32], 165)
}

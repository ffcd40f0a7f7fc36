// The sums on a lone difference, as the fixed rule writes it: a read that takes the reference from
// base 0 on and differs in its last letter alone, with fillers of A at steps of 63 before it. At 64
// that makes 2 entries, at 127 three, at 1953 = 31 * 63 thirty-one.
use crate::block::{block_buffer, equal_reads, put_bytes_at, write_block};
use crate::read_lengths::run_block;
use case_text::print::part;
use std::io;

// The bytes of the DNA section with 31 entries.
const FULL_LENGTH: usize = 38;

pub fn run_differences(rt: &impl Print) -> io::Result<()> {
    run_read(
        rt,
        b"difference at 64",
        65,
        b"\x00\x80\x00\x80\x14\x00\x00\xfc\x07",
    )?;
    run_read(
        rt,
        b"difference at 127",
        128,
        b"\x00\x80\x00\x80\x1c\x00\x00\xfc\xfc\x07",
    )?;
    let mut dna = [0xfcu8; FULL_LENGTH];
    put_bytes_at(b"\x00\x80\x00\x80\xfc\x00\x00", &mut dna, 0);
    put_bytes_at(b"\xff", &mut dna, FULL_LENGTH - 1);
    run_read(rt, b"difference at 1953", 1954, &dna)
}

// A block of one read of at least 4 letters.
fn run_read(rt: &impl Print, label: &[u8], size: u32, dna: &[u8]) -> io::Result<()> {
    if size < 4 {
        return Ok(());
    }
    let mut block = block_buffer();
    let length = write_block(equal_reads(1, size, size), dna, b"", b"\x00", &mut block);
    run_block(rt, label, part(&block, 0, length), (size - 4) as usize)
}

// Blocks of ten reads of one length. The first group is always the same: eight perfect reads, each
// at position 1, the first as a step from 0 and the others as steps of 0. The bytes of the second
// group, of two reads, are given.
use crate::block::{equal_reads, put_bytes_at, write_block};
use case_text::print::part;

// The bytes of the first group, and the most of the second.
const FIRST_LENGTH: usize = 20;

const SECOND_CAPACITY: usize = 40;

// No read is longer.
const MAX_SIZE: u32 = 8;

// Writes a block; the answer is its length, 0 where a part is too long.
pub fn write_ten(size: u32, second: &[u8], ns: &[u8], out: &mut [u8]) -> usize {
    if MAX_SIZE < size {
        return 0;
    }
    if SECOND_CAPACITY < second.len() {
        return 0;
    }
    let mut dna = [0u8; 60];
    put_bytes_at(b"\xff\xff\x00\xff\x01", &mut dna, 0);
    put_bytes_at(second, &mut dna, FIRST_LENGTH);
    write_block(
        equal_reads(10, size, size * 10),
        part(&dna, 0, FIRST_LENGTH + second.len()),
        b"",
        ns,
        out,
    )
}

// The good block: reads of 4 letters, the last two perfect at 8, as a step of 7, and at 4. It has
// 153 bytes: a DNA section of 30 and an N section of 2.
pub fn write_good(out: &mut [u8]) -> usize {
    write_ten(
        4,
        b"\xc0\xc0\x00\x80\x07\x00\x04\x00\x00\x00",
        b"\x00\x00",
        out,
    )
}

// A block of three raw reads of 5, 5 and 300 letters, all of them A, with any bytes for its size
// section; and the number that a block earns.
use crate::parts::first_part;
use crate::section::write_sizes;
use dna::refusals::Refusal;
use header::faults::header_fault;
use header::writing::{VaryingFields, put_header};
use lengths::blocks::lengths_fault;

// The block's bytes outside its size section: the header, the DNA section and the N section.
const OTHER_BYTES: usize = 208;

// No size section is longer.
const SECTION_CAPACITY: usize = 64;

// Room for the block.
pub const BLOCK_CAPACITY: usize = 272;

// Where the sections start.
const DNA_START: usize = 121;

const SIZES_START: usize = 207;

// The flag that the encoder always sets.
pub const ENCODER_FLAG: u32 = 0x4;

// Writes the valid block into a buffer of zeros; the answer is its length.
pub fn write_block(out: &mut [u8]) -> usize {
    let mut sizes = [0u8; SECTION_CAPACITY];
    let count = write_sizes(&[5, 10, 310], &mut sizes);
    write_block_with(first_part(&sizes, count), ENCODER_FLAG, 0, out)
}

// The same with the bytes of the size section, the flags and l_read given; 0 where there is too
// little room. The DNA section is zeros, as the N section is, but for the flag byte of each raw
// record, 2.
pub fn write_block_with(sizes: &[u8], flags: u32, each: u32, out: &mut [u8]) -> usize {
    if SECTION_CAPACITY < sizes.len() {
        return 0;
    }
    if out.len() < BLOCK_CAPACITY {
        return 0;
    }
    put_header(out, block_fields(sizes.len() as u32, flags, each));
    put_bytes_at(&[0, 0, 0, 0, 2, 0, 0, 2, 0, 0, 2], out, DNA_START);
    put_bytes_at(sizes, out, SIZES_START);
    OTHER_BYTES + sizes.len()
}

// The fields of the header. The DNA section has 4 group bytes, 3 flag bytes, and 2, 2 and 75 bytes
// of letters.
fn block_fields(size: u32, flags: u32, each: u32) -> VaryingFields {
    VaryingFields {
        l_dna: 86,
        l_names: 0,
        l_size: size,
        l_n: 1,
        flags,
        l_read: each,
        n_reads: 3,
        b_id: 7,
        c_time: 0,
        l_dna_raw: 310,
    }
}

// Copies bytes into a buffer, as many as there is room for.
fn put_bytes_at(bytes: &[u8], out: &mut [u8], at: usize) {
    if out.len() < at {
        return;
    }
    let count = bytes.len().min(out.len() - at);
    out[at..at + count].copy_from_slice(&bytes[..count]);
}

// The first of 2 to 10 that a block earns.
pub fn block_fault(input: &[u8]) -> Result<(), Refusal> {
    header_fault(input)?;
    lengths_fault(input)
}

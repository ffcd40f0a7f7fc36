// Blocks: a header of 121 bytes with b_id 7, then the DNA, size and N sections; all other sections
// are empty.
ghost use Rattle.std.specs.Prelude.{◌≡◌, length};

use header::faults::SAME_LENGTH_FLAG;
use header::writing::{VaryingFields, put_header};

// Room for a block.
pub const BLOCK_CAPACITY: usize = 384;

// No section is longer.
const SECTION_CAPACITY: usize = 128;

// Where the DNA section starts.
pub const DNA_START: usize = 121;

// Zeros, with room for a block.
pub fn block_buffer() -> [u8; BLOCK_CAPACITY]
    ensures { 384 ≡ length result }
{
    [0; BLOCK_CAPACITY]
}

// What a header says of the reads.
#[derive(Clone, Copy)]
pub struct Reads {
    flags: u32,
    size: u32,
    count: u32,
    // The raw DNA size.
    letters: u32,
}

// Reads of one length: flag 0x1 and l_read.
pub fn equal_reads(count: u32, size: u32, letters: u32) -> Reads {
    Reads {
        flags: SAME_LENGTH_FLAG,
        size: size,
        count: count,
        letters: letters,
    }
}

// Reads whose lengths the size section gives. l_read, -1, is not used.
pub fn varied_reads(count: u32, letters: u32) -> Reads {
    Reads {
        flags: 0,
        size: 0xffff_ffff,
        count: count,
        letters: letters,
    }
}

// Writes a block into a buffer; the answer is its length, 0 where a section or the buffer is too
// small.
pub fn write_block(reads: Reads, dna: &[u8], sizes: &[u8], ns: &[u8], out: &mut [u8]) -> usize {
    if SECTION_CAPACITY < dna.len() {
        return 0;
    }
    if SECTION_CAPACITY < sizes.len() {
        return 0;
    }
    if SECTION_CAPACITY < ns.len() {
        return 0;
    }
    if out.len() < BLOCK_CAPACITY {
        return 0;
    }
    let dna_size = dna.len() as u32;
    let size_size = sizes.len() as u32;
    put_header(
        out,
        header_fields(reads, dna_size, size_size, ns.len() as u32),
    );
    let size_start = DNA_START + dna.len();
    let n_start = size_start + sizes.len();
    put_bytes_at(dna, out, DNA_START);
    put_bytes_at(sizes, out, size_start);
    put_bytes_at(ns, out, n_start);
    n_start + ns.len()
}

fn header_fields(reads: Reads, dna: u32, sizes: u32, ns: u32) -> VaryingFields {
    VaryingFields {
        l_dna: dna,
        l_names: 0,
        l_size: sizes,
        l_n: ns,
        flags: reads.flags,
        l_read: reads.size,
        n_reads: reads.count,
        b_id: 7,
        c_time: 0,
        l_dna_raw: reads.letters,
    }
}

// Copies bytes into a buffer, as many as there is room for.
pub fn put_bytes_at(bytes: &[u8], out: &mut [u8], at: usize) {
    if out.len() < at {
        return;
    }
    let count = bytes.len().min(out.len() - at);
    out[at..at + count].copy_from_slice(&bytes[..count]);
}

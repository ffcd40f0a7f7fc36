// Blocks with names: a header of 121 bytes with b_id 7, then the DNA, names and N sections; all
// other sections are empty. The two reads are ACGT and ACGT, perfect at 0 by steps of 0.
ghost use Rattle.std.specs.Prelude.{◌≡◌, length};

use header::faults::SAME_LENGTH_FLAG;
use header::writing::{VaryingFields, put_header};
use integers::{put_u32, put_u64};

// Room for a block, and for a names section.
pub const BLOCK_CAPACITY: usize = 384;

pub const SECTION_CAPACITY: usize = 128;

// No set of a column is longer.
const SET_CAPACITY: usize = 40;

// Where the DNA section starts, and what it takes.
const DNA_START: usize = 121;

pub const DNA_LENGTH: usize = 8;

// The count of two columns, their types and their sizes.
const TABLE_LENGTH: usize = 22;

// Names are stored.
pub const NAMES_FLAG: u32 = 0x8;

// Zeros, with room for a block and for a names section.
pub fn block_buffer() -> [u8; BLOCK_CAPACITY]
    ensures { 384 ≡ length result }
{
    [0; BLOCK_CAPACITY]
}

pub fn section_buffer() -> [u8; SECTION_CAPACITY]
    ensures { 128 ≡ length result }
{
    [0; SECTION_CAPACITY]
}

// Writes a block of the two reads over zeros, with these flags beside 0x1 and a DNA section of so
// many bytes; the answer is its length, 0 where a section or the buffer is too small.
pub fn write_two(flags: u32, dna: usize, names: &[u8], out: &mut [u8]) -> usize {
    if SECTION_CAPACITY < dna {
        return 0;
    }
    if SECTION_CAPACITY < names.len() {
        return 0;
    }
    if out.len() < BLOCK_CAPACITY {
        return 0;
    }
    put_header(out, two_reads(flags, dna as u32, names.len() as u32));
    put_bytes_at(b"\xc0\xc0\x00\xc0", out, DNA_START);
    put_bytes_at(names, out, DNA_START + dna);
    DNA_START + dna + names.len() + 1
}

// Writes a block of no reads; the answer is its length.
pub fn write_none(names: &[u8], out: &mut [u8]) -> usize {
    if SECTION_CAPACITY < names.len() {
        return 0;
    }
    if out.len() < BLOCK_CAPACITY {
        return 0;
    }
    put_header(out, no_reads(names.len() as u32));
    put_bytes_at(names, out, DNA_START);
    DNA_START + names.len()
}

fn two_reads(flags: u32, dna: u32, names: u32) -> VaryingFields {
    VaryingFields {
        l_dna: dna,
        l_names: names,
        l_size: 0,
        l_n: 1,
        flags: SAME_LENGTH_FLAG | flags,
        l_read: 4,
        n_reads: 2,
        l_dna_raw: 8,
        b_id: 7,
        c_time: 0,
    }
}

// l_read, -1, is not used.
fn no_reads(names: u32) -> VaryingFields {
    VaryingFields {
        l_dna: 0,
        l_names: names,
        l_size: 0,
        l_n: 0,
        flags: NAMES_FLAG,
        l_read: 0xffff_ffff,
        n_reads: 0,
        l_dna_raw: 0,
        b_id: 7,
        c_time: 0,
    }
}

// Writes a names section of two columns; the answer is its length, 0 where there is no room.
pub fn write_columns(types: &[u8], first: &[u8], second: &[u8], out: &mut [u8]) -> usize {
    if SET_CAPACITY < first.len() {
        return 0;
    }
    if SET_CAPACITY < second.len() {
        return 0;
    }
    if out.len() < SECTION_CAPACITY {
        return 0;
    }
    put_u32(out, 0, 2);
    put_u64(out, 6, first.len() as u64);
    put_u64(out, 14, second.len() as u64);
    put_bytes_at(types, out, 4);
    put_bytes_at(first, out, TABLE_LENGTH);
    put_bytes_at(second, out, TABLE_LENGTH + first.len());
    TABLE_LENGTH + first.len() + second.len()
}

// Copies bytes into a buffer, as many as there is room for.
fn put_bytes_at(bytes: &[u8], out: &mut [u8], at: usize) {
    if out.len() < at {
        return;
    }
    let count = bytes.len().min(out.len() - at);
    out[at..at + count].copy_from_slice(&bytes[..count]);
}

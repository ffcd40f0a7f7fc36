// A block with a header of 124 bytes and eight sections that have bytes, its header written byte by
// byte; where each section stands and what it holds. Each starts where the one before it ends, the
// first at 124. m2 is empty, so its span is 0 0; so are those of the numbers past 8 and of a header
// that is refused, and then b_id and length are 0.
use crate::block::{BLOCK_CAPACITY, block_buffer, put_bytes_at};
use crate::show::{room_of, show};
use case_text::print::{end_line, part, put_bytes, put_number, put_text};
use std::io;

// The bytes of the block: 124, then 10 3 2 4 4 1 5 0 1.
const FULL_LENGTH: usize = 154;

// How many section numbers are asked for: one more than there are sections.
const ASKED_SECTIONS: u64 = 10;

// The block, with bytes after it, without its last byte, and with another magic.
pub fn run_sections(rt: &impl Print) -> io::Result<()> {
    show_full(rt)?;
    run_input(rt, b"sections", FULL_LENGTH, 0x49)?;
    run_input(rt, b"sections and more bytes", BLOCK_CAPACITY, 0x49)?;
    run_input(rt, b"sections cut", FULL_LENGTH - 1, 0x49)?;
    run_input(rt, b"sections, magic", FULL_LENGTH, 0x48)
}

// The block decoded, and its largest section number.
fn show_full(rt: &impl Print) -> io::Result<()> {
    let mut block = block_buffer();
    write_full(&mut block);
    show(rt, b"sections", part(&block, 0, FULL_LENGTH), room_of(8, 3))?;
    run_section(rt, part(&block, 0, FULL_LENGTH), 0xffff_ffff_ffff_ffff)
}

// The first so many bytes of the block and the zeros after it, with this first byte.
fn run_input(rt: &impl Print, label: &[u8], most: usize, first: u8) -> io::Result<()> {
    let mut block = block_buffer();
    write_full(&mut block);
    put_bytes_at(&[first], &mut block, 0);
    run_block(rt, label, part(&block, 0, most))
}

// What is told of a block without its sections, then those.
fn run_block(rt: &impl Print, label: &[u8], input: &[u8]) -> io::Result<()> {
    put_block(rt, label, input)?;
    for number in 0..ASKED_SECTIONS {
        run_section(rt, input, number)?;
    }
    Ok(())
}

// The b_id and the length of a block.
fn put_block(rt: &impl Print, label: &[u8], input: &[u8]) -> io::Result<()> {
    put_text(rt, label)?;
    put_text(rt, b": b_id")?;
    put_number(rt, ora::block_id(input))?;
    put_text(rt, b" length")?;
    put_number(rt, ora::block_length(input))?;
    end_line(rt)
}

// Where a section stands, and its bytes.
fn run_section(rt: &impl Print, input: &[u8], number: u64) -> io::Result<()> {
    put_text(rt, b"section")?;
    put_number(rt, number)?;
    put_text(rt, b":")?;
    let span = ora::section_span(input, number);
    put_number(rt, span.offset)?;
    put_number(rt, span.size)?;
    put_bytes(rt, ora::section(input, number))?;
    end_line(rt)
}

// Writes the block into a buffer of zeros: two reads of 4 and 3 letters, ACGT perfect at 4, and raw
// GAT.
fn write_full(out: &mut [u8]) {
    put_lengths(out);
    put_counts(out);
    put_sections(out);
}

// The magic, l_header, and the lengths of the sections.
fn put_lengths(out: &mut [u8]) {
    put_bytes_at(
        b"\x49\x7c\x7c\x00\x00\x00\x0a\x00\x00\x00\x03\x00\x00\x00",
        out,
        0,
    );
    put_bytes_at(b"\x02\x00\x00\x00\x04\x00\x00\x00\x04\x00\x00\x00", out, 14);
    put_bytes_at(
        b"\x01\x00\x00\x00\x05\x00\x00\x00\x00\x00\x00\x00\x01",
        out,
        26,
    );
}

// n_reads, version, b_id, which is 0x0807060504030201, and the raw DNA size.
fn put_counts(out: &mut [u8]) {
    put_bytes_at(
        b"\x02\x00\x00\x00\x19\x50\x01\x02\x03\x04\x05\x06\x07\x08",
        out,
        50,
    );
    put_bytes_at(b"\x07", out, 73);
}

// Three extra bytes of the header, then the sections.
fn put_sections(out: &mut [u8]) {
    put_bytes_at(
        b"\xff\xff\xff\x80\x80\x00\x00\x04\x00\x00\x00\x02\x8c",
        out,
        121,
    );
    put_bytes_at(b"\x11\x12\x13\x21\x22\x31\x32\x33\x34", out, 134);
    put_bytes_at(b"\x00\xc0\x04\x03\x00\x61\x62\x63\x64\x65\x81", out, 143);
}

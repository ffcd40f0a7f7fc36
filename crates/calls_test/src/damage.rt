// The good block of ten reads with a damaged reference, header, size section or N section, for each
// of 1 to 11. A name begins with the number that the table of refusals gives; 0 says that the copy
// is still good. The read is 0, but for the case of 11 bases, in which read 8, at position 8,
// leaves the reference, and for the N section's byte of the second group, whose first read is 8.
use crate::block::{BLOCK_CAPACITY, block_buffer, put_bytes_at, varied_reads, write_block};
use crate::show::{Room, room_of, show, show_under};
use crate::ten_reads::{write_good, write_ten};
use case_text::print::part;
use integers::{put_u16, put_u32};
use std::io;

// Offsets of header fields.
const MAGIC_AT: usize = 0;

const L_HEADER_AT: usize = 2;

const L_DNA_AT: usize = 6;

const L_M3_AT: usize = 38;

const FLAGS_AT: usize = 42;

const L_READ_AT: usize = 46;

const N_READS_AT: usize = 50;

const VERSION_AT: usize = 54;

const L_DNA_RAW_AT: usize = 73;

// The 32 bits of -1, and of the lowest signed number.
const MINUS_ONE: u32 = 0xffff_ffff;

const LOWEST: u32 = 0x8000_0000;

pub fn run_faults(rt: &impl Print) -> io::Result<()> {
    run_good(rt)?;
    run_references(rt)?;
    run_kinds(rt)?;
    run_fields(rt)?;
    run_truncated(rt)?;
    run_same_length(rt)?;
    run_sizes(rt)?;
    run_n_sections(rt)
}

// ---- The cases

// Copies that are good: the block, the last version, and an unknown flag.
fn run_good(rt: &impl Print) -> io::Result<()> {
    run_input(rt, b"0 whole block", BLOCK_CAPACITY)?;
    run_short_field(rt, b"0 version 29999", VERSION_AT, 29999)?;
    run_field(rt, b"0 flag 0x2", FLAGS_AT, 0x3)
}

// 1, before 2 too, and of bases that 32 bits would cut to 12 or a sum of 64 bits to none; and 15.
fn run_references(rt: &impl Print) -> io::Result<()> {
    run_reference(rt, b"1 reference of 2 bytes", 12, b"\x1b\x1b")?;
    run_reference(rt, b"1 reference of 4 bytes", 12, b"\x1b\x1b\xe4\x00")?;
    run_reference(rt, b"1 13 bases", 13, b"\x1b\x1b\xe4")?;
    run_reference(rt, b"1 8 bases", 8, b"\x1b\x1b\xe4")?;
    run_reference(rt, b"1 2^32 + 12 bases", 0x1_0000_000c, b"\x1b\x1b\xe4")?;
    run_reference(rt, b"1 2^64 - 3 bases", 0xffff_ffff_ffff_fffd, b"")?;
    run_reference(rt, b"1 2^64 - 1 bases", 0xffff_ffff_ffff_ffff, b"")?;
    run_reference(rt, b"15 11 bases", 11, b"\x1b\x1b\xe4")?;
    show_under(rt, b"1 before 2", 12, b"\x1b\x1b", b"", buffers())
}

// 2 to 4.
fn run_kinds(rt: &impl Print) -> io::Result<()> {
    run_input(rt, b"2 no bytes", 0)?;
    run_input(rt, b"2 120 bytes", 120)?;
    run_short_field(rt, b"3 magic 49 7d", MAGIC_AT, 0x7d49)?;
    run_short_field(rt, b"4 version 20504", VERSION_AT, 20504)?;
    run_short_field(rt, b"4 version 30000", VERSION_AT, 30000)
}

// 5 to 7, and 10.
fn run_fields(rt: &impl Print) -> io::Result<()> {
    run_field(rt, b"5 l_header 120", L_HEADER_AT, 120)?;
    run_field(rt, b"5 l_header -1", L_HEADER_AT, MINUS_ONE)?;
    run_field(rt, b"6 flag 0x40", FLAGS_AT, 0x41)?;
    run_field(rt, b"6 flag 0x80", FLAGS_AT, 0x81)?;
    run_field(rt, b"7 n_reads 50001", N_READS_AT, 50_001)?;
    run_field(rt, b"7 n_reads -1", N_READS_AT, MINUS_ONE)?;
    run_field(rt, b"7 n_reads -2147483648", N_READS_AT, LOWEST)?;
    run_field(rt, b"10 raw DNA size 39", L_DNA_RAW_AT, 39)?;
    run_field(rt, b"10 raw DNA size 41", L_DNA_RAW_AT, 41)?;
    run_field(rt, b"10 n_reads 9", N_READS_AT, 9)
}

// 8.
fn run_truncated(rt: &impl Print) -> io::Result<()> {
    run_input(rt, b"8 121 bytes", 121)?;
    run_input(rt, b"8 152 bytes", 152)?;
    run_field(rt, b"8 l_header 122", L_HEADER_AT, 122)?;
    run_field(rt, b"8 l_DNA 31", L_DNA_AT, 31)?;
    run_field(rt, b"8 l_m3 4294967295", L_M3_AT, 0xffff_ffff)
}

// 9, with flag 0x1, and without it and without sizes.
fn run_same_length(rt: &impl Print) -> io::Result<()> {
    run_field(rt, b"9 l_read 0", L_READ_AT, 0)?;
    run_field(rt, b"9 l_read -1", L_READ_AT, MINUS_ONE)?;
    run_field(rt, b"9 l_read 100001", L_READ_AT, 100_001)?;
    run_field(rt, b"9 no flag 0x1", FLAGS_AT, 0)
}

// 9, with a size section: a length of 4 and the same for the other nine reads is good.
fn run_sizes(rt: &impl Print) -> io::Result<()> {
    run_size_section(rt, b"0 sizes", b"\x7f\x80\x04\xc0\x00")?;
    run_size_section(rt, b"9 both bits", b"\x7f\x81\x04\xc0\x00")?;
    run_size_section(rt, b"9 same on the first read", b"\xff\x00\xc0\x00")?;
    run_size_section(rt, b"9 same past the last read", b"\x7f\x80\x04\xe0\x00")?;
    run_size_section(rt, b"9 length 0", b"\x7f\x80\x00\xc0\x00")?;
    run_size_section(rt, b"9 word 32769", b"\x7f\x00\x01\x80\xc0\x00")?;
    run_size_section(rt, b"9 a byte missing", b"\x7f\x80\x04\xc0")?;
    run_size_section(rt, b"9 a byte left", b"\x7f\x80\x04\xc0\x00\x00")
}

// 11.
fn run_n_sections(rt: &impl Print) -> io::Result<()> {
    run_n_section(rt, b"11 N section empty", b"")?;
    run_n_section(rt, b"11 N section of 1 byte", b"\x00")?;
    run_n_section(rt, b"11 N section of 3 bytes", b"\x00\x00\x00")?;
    run_n_section(rt, b"11 first N byte", b"\x01\x00")?;
    run_n_section(rt, b"11 second N byte", b"\x00\x40")
}

// ---- One case

// What is lent: more than ten reads of 5 letters want.
pub fn buffers() -> Room {
    room_of(56, 12)
}

// The first bytes of the block, at most so many.
fn run_input(rt: &impl Print, label: &[u8], most: usize) -> io::Result<()> {
    let mut block = block_buffer();
    let length = write_good(&mut block);
    show(rt, label, part(&block, 0, length.min(most)), buffers())
}

// The block under another reference.
fn run_reference(rt: &impl Print, label: &[u8], bases: u64, reference: &[u8]) -> io::Result<()> {
    let mut block = block_buffer();
    let length = write_good(&mut block);
    show_under(
        rt,
        label,
        bases,
        reference,
        part(&block, 0, length),
        buffers(),
    )
}

// The block with a field of two bytes replaced.
fn run_short_field(rt: &impl Print, label: &[u8], at: usize, number: u16) -> io::Result<()> {
    let mut block = block_buffer();
    let length = write_good(&mut block);
    if BLOCK_CAPACITY - 2 < at {
        return Ok(());
    }
    put_u16(&mut block, at, number);
    show(rt, label, part(&block, 0, length), buffers())
}

// The block with a field of four bytes replaced.
fn run_field(rt: &impl Print, label: &[u8], at: usize, number: u32) -> io::Result<()> {
    let mut block = block_buffer();
    let length = write_good(&mut block);
    if BLOCK_CAPACITY - 4 < at {
        return Ok(());
    }
    put_u32(&mut block, at, number);
    show(rt, label, part(&block, 0, length), buffers())
}

// A block of ten perfect reads at 0 with this size section.
fn run_size_section(rt: &impl Print, label: &[u8], sizes: &[u8]) -> io::Result<()> {
    let mut dna = [0u8; 28];
    put_bytes_at(b"\xff\xff\x00\xff", &mut dna, 0);
    put_bytes_at(b"\xc0\xc0\x00\xc0", &mut dna, 20);
    let mut block = block_buffer();
    let length = write_block(varied_reads(10, 40), &dna, sizes, b"\x00\x00", &mut block);
    show(rt, label, part(&block, 0, length), buffers())
}

// The block with this N section.
fn run_n_section(rt: &impl Print, label: &[u8], ns: &[u8]) -> io::Result<()> {
    let mut block = block_buffer();
    let length = write_ten(
        4,
        b"\xc0\xc0\x00\x80\x07\x00\x04\x00\x00\x00",
        ns,
        &mut block,
    );
    show(rt, label, part(&block, 0, length), buffers())
}

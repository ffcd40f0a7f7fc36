// Damaged copies of one block, and the number that each earns; a number of 0 says that the copy is
// still good.
use crate::block::{BLOCK_CAPACITY, ENCODER_FLAG, block_fault, write_block, write_block_with};
use crate::lines::{end_line, put_number, start_line};
use crate::parts::first_part;
use header::faults::{ENCRYPTED_FLAG, FALLBACK_FLAG, SAME_LENGTH_FLAG};
use integers::{put_u16, put_u32};
use std::io;

// Offsets of header fields.
const MAGIC_AT: usize = 0;

const L_HEADER_AT: usize = 2;

const L_DNA_AT: usize = 6;

const L_M3_AT: usize = 38;

const FLAGS_AT: usize = 42;

const L_READ_AT: usize = 46;

const N_READS_AT: usize = 50;

const VERSION_AT: usize = 54;

const L_DNA_RAW_AT: usize = 73;

// The 32 bits of -1, and of the lowest signed number.
const MINUS_ONE: u32 = 0xffff_ffff;

const LOWEST: u32 = 0x8000_0000;

pub fn run_faults(rt: &impl Print) -> io::Result<()> {
    run_good(rt)?;
    run_kind_faults(rt)?;
    run_field_faults(rt)?;
    run_truncated(rt)?;
    run_size_faults(rt)?;
    run_flag_bits(rt)?;
    run_section_ends(rt)?;
    run_same_length(rt)?;
    run_raw_sizes(rt)
}

// ---- The cases

// Copies that are good: the block, the last version, and a negative l_read that is not used.
fn run_good(rt: &impl Print) -> io::Result<()> {
    run_input(rt, b"whole block", BLOCK_CAPACITY)?;
    run_short_field(rt, b"version 29999", VERSION_AT, 29999)?;
    run_field(rt, b"l_read -1, unused", L_READ_AT, MINUS_ONE)
}

// 2 to 4.
fn run_kind_faults(rt: &impl Print) -> io::Result<()> {
    run_input(rt, b"no bytes", 0)?;
    run_input(rt, b"120 bytes", 120)?;
    run_short_field(rt, b"magic 49 7d", MAGIC_AT, 0x7d49)?;
    run_short_field(rt, b"version 20504", VERSION_AT, 20504)?;
    run_short_field(rt, b"version 30000", VERSION_AT, 30000)
}

// 5 to 7.
fn run_field_faults(rt: &impl Print) -> io::Result<()> {
    run_field(rt, b"l_header 120", L_HEADER_AT, 120)?;
    run_field(rt, b"l_header -1", L_HEADER_AT, MINUS_ONE)?;
    run_field(rt, b"l_header -2147483648", L_HEADER_AT, LOWEST)?;
    run_field(rt, b"flag 0x40", FLAGS_AT, ENCODER_FLAG + FALLBACK_FLAG)?;
    run_field(rt, b"flag 0x80", FLAGS_AT, ENCODER_FLAG + ENCRYPTED_FLAG)?;
    run_field(rt, b"n_reads 50001", N_READS_AT, 50_001)?;
    run_field(rt, b"n_reads -1", N_READS_AT, MINUS_ONE)
}

// 8.
fn run_truncated(rt: &impl Print) -> io::Result<()> {
    run_input(rt, b"121 bytes", 121)?;
    run_input(rt, b"212 bytes", 212)?;
    run_field(rt, b"l_header 122", L_HEADER_AT, 122)?;
    run_field(rt, b"l_DNA 87", L_DNA_AT, 87)?;
    run_field(rt, b"l_m3 4294967295", L_M3_AT, 0xffff_ffff)
}

// 9: sizes that are not lengths.
fn run_size_faults(rt: &impl Print) -> io::Result<()> {
    run_sizes(rt, b"word 32769 at the end", b"\x40\x80\x05\x01\x80")?;
    run_sizes(
        rt,
        b"word 32769 before a word",
        b"\x40\x80\x05\x01\x80\x00\x00",
    )?;
    run_sizes(rt, b"length 0 in a byte", b"\x40\x80\x00\x2c\x01")?;
    run_sizes(rt, b"length 0 in a word", b"\x40\x80\x05\x00\x00")?;
    run_sizes(
        rt,
        b"length 100001",
        b"\x40\x80\x05\x00\x80\x00\x80\x00\x80\xa1\x06",
    )
}

// 9: flag bits.
fn run_flag_bits(rt: &impl Print) -> io::Result<()> {
    run_sizes(rt, b"both bits of a read", b"\x40\xc0\x05\x2c\x01")?;
    run_sizes(rt, b"same bit of the first read", b"\xc0\x00\x2c\x01")?;
    run_sizes(rt, b"same bit past the last read", b"\x50\x80\x05\x2c\x01")?;
    run_sizes(
        rt,
        b"byte-size bit past the last read",
        b"\x40\x81\x05\x2c\x01",
    )
}

// 9: sections with bytes missing or left.
fn run_section_ends(rt: &impl Print) -> io::Result<()> {
    run_sizes(rt, b"section empty", b"")?;
    run_sizes(rt, b"section of 1 byte", b"\x40")?;
    run_sizes(rt, b"section one byte short", b"\x40\x80\x05\x2c")?;
    run_sizes(rt, b"section one byte long", b"\x40\x80\x05\x2c\x01\x00")?;
    run_field(rt, b"n_reads 2", N_READS_AT, 2)?;
    run_field(rt, b"n_reads 4", N_READS_AT, 4)
}

// 9 and 10, with flag 0x1.
fn run_same_length(rt: &impl Print) -> io::Result<()> {
    run_same(rt, b"flag 0x1, l_read 0", 0, b"")?;
    run_same(rt, b"flag 0x1, l_read -1", MINUS_ONE, b"")?;
    run_same(rt, b"flag 0x1, l_read 100001", 100_001, b"")?;
    run_same(rt, b"flag 0x1, section not empty", 5, b"\x00")?;
    run_same(rt, b"flag 0x1, l_read 5", 5, b"")
}

// 10.
fn run_raw_sizes(rt: &impl Print) -> io::Result<()> {
    run_field(rt, b"raw DNA size 309", L_DNA_RAW_AT, 309)?;
    run_field(rt, b"raw DNA size 311", L_DNA_RAW_AT, 311)
}

// ---- One case

// The first bytes of the block, at most so many.
fn run_input(rt: &impl Print, label: &[u8], most: usize) -> io::Result<()> {
    let mut block = [0u8; BLOCK_CAPACITY];
    let size = write_block(&mut block);
    put_case(rt, label, first_part(first_part(&block, size), most))
}

// The block with a field of two bytes replaced.
fn run_short_field(rt: &impl Print, label: &[u8], at: usize, number: u16) -> io::Result<()> {
    let mut block = [0u8; BLOCK_CAPACITY];
    let size = write_block(&mut block);
    if BLOCK_CAPACITY - 2 < at {
        return Ok(());
    }
    put_u16(&mut block, at, number);
    put_case(rt, label, first_part(&block, size))
}

// The block with a field of four bytes replaced.
fn run_field(rt: &impl Print, label: &[u8], at: usize, number: u32) -> io::Result<()> {
    let mut block = [0u8; BLOCK_CAPACITY];
    let size = write_block(&mut block);
    if BLOCK_CAPACITY - 4 < at {
        return Ok(());
    }
    put_u32(&mut block, at, number);
    put_case(rt, label, first_part(&block, size))
}

// The block with this size section.
fn run_sizes(rt: &impl Print, label: &[u8], sizes: &[u8]) -> io::Result<()> {
    let mut block = [0u8; BLOCK_CAPACITY];
    let size = write_block_with(sizes, ENCODER_FLAG, 0, &mut block);
    put_case(rt, label, first_part(&block, size))
}

// The block with flag 0x1, this l_read and this size section.
fn run_same(rt: &impl Print, label: &[u8], each: u32, sizes: &[u8]) -> io::Result<()> {
    let mut block = [0u8; BLOCK_CAPACITY];
    let size = write_block_with(sizes, ENCODER_FLAG + SAME_LENGTH_FLAG, each, &mut block);
    put_case(rt, label, first_part(&block, size))
}

// The line of a case: its label and the number.
fn put_case(rt: &impl Print, label: &[u8], input: &[u8]) -> io::Result<()> {
    start_line(rt, label)?;
    start_line(rt, b": number")?;
    let number = match block_fault(input) {
        Ok(()) => 0,
        Err(refusal) => refusal.number(),
    };
    put_number(rt, u64::from(number))?;
    end_line(rt)
}

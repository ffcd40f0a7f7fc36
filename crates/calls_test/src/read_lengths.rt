// The sums on lengths, as blocks of perfect reads that end where the reference does: 65,535 bases,
// all A but the last, T. What is left of the last byte is no base. Only the last four letters, and
// four past them, are printed.
ghost use Rattle.std.specs.Prelude.{◌≡◌, length};

use crate::block::{block_buffer, put_bytes_at, varied_reads, write_block};
use crate::outcomes::put_block_outcome;
use crate::show::{NAME_ENDS_LENT, NAMES_LENT};
use case_text::print::{
    UNTOUCHED_BYTE, UNTOUCHED_END, end_line, part, put_numbers, put_text, put_word,
};
use std::io;

// The bytes of the reference, and its bases.
const REFERENCE_LENGTH: usize = 16_384;

const REFERENCE_BASES: u64 = 65_535;

// The letters and ends that are lent.
const LETTERS_LENT: usize = 65_540;

const ENDS_LENT: usize = 4;

pub fn run_lengths(rt: &impl Print) -> io::Result<()> {
    run_list(rt)?;
    run_words(rt)
}

// Lengths 5, 5, 300, at 0, 65530 and 65235.
fn run_list(rt: &impl Print) -> io::Result<()> {
    let mut block = block_buffer();
    let length = write_block(
        varied_reads(3, 310),
        b"\xe0\xe0\x00\x00\x00\x00\x00\x00\xfa\xff\x00\x00\xd3\xfe\x00\x00",
        b"\x40\x80\x05\x2c\x01",
        b"\x00",
        &mut block,
    );
    run_block(rt, b"lengths 5 5 300", part(&block, 0, length), 306)
}

// One read of 256, 32768 and 65535 letters, in words; and 256 in one byte, which is a length of 0.
fn run_words(rt: &impl Print) -> io::Result<()> {
    run_read(rt, b"256", 256, b"\xff\xfe", b"\x00\x00\x00\x01")?;
    run_read(
        rt,
        b"32768",
        32_768,
        b"\xff\x7f",
        b"\x00\x00\x00\x80\x00\x00",
    )?;
    run_read(
        rt,
        b"65535",
        65_535,
        b"\x00\x00",
        b"\x00\x00\x00\x80\xff\x7f",
    )?;
    run_read(rt, b"256 in a byte", 256, b"\xff\xfe", b"\x00\x80\x00")
}

// A block of one read of at least 4 letters, at a step from 0.
fn run_read(rt: &impl Print, label: &[u8], size: u32, step: &[u8], sizes: &[u8]) -> io::Result<()> {
    if size < 4 {
        return Ok(());
    }
    let mut dna = [0x80, 0x80, 0x00, 0x80, 0x00, 0x00];
    put_bytes_at(step, &mut dna, 4);
    let mut block = block_buffer();
    let length = write_block(varied_reads(1, size), &dna, sizes, b"\x00", &mut block);
    run_block(rt, label, part(&block, 0, length), (size - 4) as usize)
}

// The line of a block, with eight letters from a place on.
pub fn run_block(rt: &impl Print, label: &[u8], input: &[u8], at: usize) -> io::Result<()> {
    let mut reference = zero_reference();
    put_bytes_at(&[0x0f], &mut reference, REFERENCE_LENGTH - 1);
    let mut letters = untouched_letters();
    decode_into(rt, label, &reference, input, &mut letters, at)
}

// The same with the reference and the buffer of letters given.
fn decode_into(
    rt: &impl Print,
    label: &[u8],
    reference: &[u8],
    input: &[u8],
    letters: &mut [u8],
    at: usize,
) -> io::Result<()> {
    let mut ends = [UNTOUCHED_END; ENDS_LENT];
    let mut names = [UNTOUCHED_BYTE; NAMES_LENT];
    let mut name_ends = [UNTOUCHED_END; NAME_ENDS_LENT];
    put_text(rt, label)?;
    put_text(rt, b": decode")?;
    put_block_outcome(
        rt,
        ora::decode(
            REFERENCE_BASES,
            reference,
            input,
            letters,
            &mut ends,
            &mut names,
            &mut name_ends,
        ),
    )?;
    put_text(rt, b", validate_block")?;
    put_block_outcome(rt, ora::validate_block(REFERENCE_BASES, reference, input))?;
    put_text(rt, b",")?;
    put_word(rt, part(letters, at, 8))?;
    put_numbers(rt, &ends)?;
    end_line(rt)
}

fn untouched_letters() -> [u8; LETTERS_LENT]
    ensures { 65_540 ≡ length result }
{
    [UNTOUCHED_BYTE; LETTERS_LENT]
}

// Only A.
fn zero_reference() -> [u8; REFERENCE_LENGTH]
    ensures { 16_384 ≡ length result }
{
    [0; REFERENCE_LENGTH]
}

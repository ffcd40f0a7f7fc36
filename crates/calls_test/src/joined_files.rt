// Files: the specification's block of the listing (132 bytes), the block of groups (237 bytes) and
// a block without reads (121 bytes), one after the other. They end at 132, 369 and 490; their
// counts are 1 4 1 1 0, 17 77 5 3 0 and 0 0 0 0 0. A file that ends one byte before a block's end
// earns 8 there, or 2 where fewer than 121 bytes are left, as one byte after it.
ghost use Rattle.std.specs.Prelude.{◌≡◌, length};

use crate::block::{block_buffer, equal_reads, put_bytes_at, varied_reads, write_block};
use crate::groups::write_groups;
use crate::outcomes::put_file_outcome;
use case_text::print::{end_line, part, put_number, put_text};
use std::io;

// More bytes than the file has.
const FILE_CAPACITY: usize = 500;

// Where the second and the third block start, and where the file ends.
const SECOND_AT: usize = 132;

const THIRD_AT: usize = 369;

const FILE_LENGTH: usize = 490;

// In the second block, the step of its last read: 3 for 2 leads to position 8, past the last base
// for 5 letters.
const LAST_STEP_AT: usize = 342;

pub fn run_files(rt: &impl Print) -> io::Result<()> {
    run_cuts(rt)?;
    run_references(rt)?;
    run_damaged(rt)?;
    run_alone(rt)
}

// ---- The cases

// The file, cut at each end and a byte off each.
fn run_cuts(rt: &impl Print) -> io::Result<()> {
    run_cut(rt, 0)?;
    run_cut(rt, 1)?;
    run_cut(rt, 131)?;
    run_cut(rt, 132)?;
    run_cut(rt, 133)?;
    run_cut(rt, 368)?;
    run_cut(rt, 369)?;
    run_cut(rt, 370)?;
    run_cut(rt, 489)?;
    run_cut(rt, 490)?;
    run_cut(rt, 491)
}

// 1, of the empty file too; under no bases the empty file is accepted.
fn run_references(rt: &impl Print) -> io::Result<()> {
    run_file_under(rt, b"empty file, wrong reference", 13, b"\x1b\x1b\xe4", b"")?;
    run_file_under(rt, b"empty file, no bases", 0, b"", b"")?;
    let mut file = file_buffer();
    write_file(&mut file);
    run_file_under(
        rt,
        b"wrong reference",
        12,
        b"\x1b\x1b",
        part(&file, 0, FILE_LENGTH),
    )
}

// Refusals in each block, and in two.
fn run_damaged(rt: &impl Print) -> io::Result<()> {
    run_byte(rt, b"first magic", 0, 0)?;
    run_byte(rt, b"second magic", SECOND_AT, 0)?;
    run_byte(rt, b"third magic", THIRD_AT, 0)?;
    run_byte(rt, b"last step of the second block", LAST_STEP_AT, 3)?;
    run_both(rt, b"that step and the third magic")
}

// A block alone, and twice; and the block without reads.
fn run_alone(rt: &impl Print) -> io::Result<()> {
    run_example(rt, b"one block", 132)?;
    run_example(rt, b"the same twice", 264)?;
    let mut file = file_buffer();
    put_empty(&mut file, 0);
    run_file(rt, b"no reads", part(&file, 0, 121))
}

// ---- One case

// The first so many bytes of the file.
fn run_cut(rt: &impl Print, end: usize) -> io::Result<()> {
    let mut file = file_buffer();
    write_file(&mut file);
    put_text(rt, b"file of")?;
    put_number(rt, end as u64)?;
    run_file(rt, b"", part(&file, 0, end))
}

// The file with a byte replaced.
fn run_byte(rt: &impl Print, label: &[u8], at: usize, byte: u8) -> io::Result<()> {
    let mut file = file_buffer();
    write_file(&mut file);
    put_bytes_at(&[byte], &mut file, at);
    run_file(rt, label, part(&file, 0, FILE_LENGTH))
}

// The file with the step and the third magic replaced: the first refusal counts.
fn run_both(rt: &impl Print, label: &[u8]) -> io::Result<()> {
    let mut file = file_buffer();
    write_file(&mut file);
    put_bytes_at(&[3], &mut file, LAST_STEP_AT);
    put_bytes_at(&[0], &mut file, THIRD_AT);
    run_file(rt, label, part(&file, 0, FILE_LENGTH))
}

// The first so many bytes of two blocks of the listing.
fn run_example(rt: &impl Print, label: &[u8], end: usize) -> io::Result<()> {
    let mut file = file_buffer();
    put_example(&mut file, 0);
    put_example(&mut file, SECOND_AT);
    run_file(rt, label, part(&file, 0, end))
}

// The line of a file under the reference ACGTACGTTGCA.
fn run_file(rt: &impl Print, label: &[u8], file: &[u8]) -> io::Result<()> {
    run_file_under(rt, label, 12, b"\x1b\x1b\xe4", file)
}

// The same under any reference.
fn run_file_under(
    rt: &impl Print,
    label: &[u8],
    bases: u64,
    reference: &[u8],
    file: &[u8],
) -> io::Result<()> {
    put_text(rt, label)?;
    put_text(rt, b":")?;
    put_file_outcome(rt, ora::validate(bases, reference, file))?;
    end_line(rt)
}

// ---- The blocks

// Zeros, with room for the file and more.
fn file_buffer() -> [u8; FILE_CAPACITY]
    ensures { 500 ≡ length result }
{
    [0; FILE_CAPACITY]
}

fn write_file(file: &mut [u8]) {
    put_example(file, 0);
    put_groups(file, SECOND_AT);
    put_empty(file, THIRD_AT);
}

// The block of the listing: the fifth row.
fn put_example(file: &mut [u8], at: usize) {
    let mut block = block_buffer();
    let dna = b"\x00\x80\x00\x00\x0c\x00\x00\x00\x00\x0b";
    let length = write_block(equal_reads(1, 4, 4), dna, b"", b"\x00", &mut block);
    put_bytes_at(part(&block, 0, length), file, at);
}

fn put_groups(file: &mut [u8], at: usize) {
    let mut block = block_buffer();
    let length = write_groups(&mut block);
    put_bytes_at(part(&block, 0, length), file, at);
}

// The block without reads.
fn put_empty(file: &mut [u8], at: usize) {
    let mut block = block_buffer();
    let length = write_block(varied_reads(0, 0), b"", b"", b"", &mut block);
    put_bytes_at(part(&block, 0, length), file, at);
}

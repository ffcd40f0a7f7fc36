// The rows of "Sums done by hand", each a block of one read: its DNA section is the row's group
// bytes and record, its N section the row's with-N byte. The row gives the letters or the refusal;
// a block is 122 bytes longer than its DNA section. Four more letters and one more end are lent
// than the longest row wants.
use crate::block::{block_buffer, equal_reads, write_block};
use crate::show::{room_of, show};
use case_text::print::part;
use std::io;

pub fn run_sums(rt: &impl Print) -> io::Result<()> {
    run_perfect(rt)?;
    run_entries(rt)?;
    run_others(rt)
}

// Rows 1 to 4.
fn run_perfect(rt: &impl Print) -> io::Result<()> {
    run_row(
        rt,
        b"row 1",
        4,
        b"\x80\x80\x00\x00\x04\x00\x00\x00",
        b"\x00",
    )?;
    run_row(rt, b"row 2", 4, b"\x80\x80\x00\x80\x04\x00", b"\x00")?;
    run_row(
        rt,
        b"row 3",
        4,
        b"\x80\x80\x00\x00\x09\x00\x00\x00",
        b"\x00",
    )?;
    run_row(
        rt,
        b"row 3 with 08",
        4,
        b"\x80\x80\x00\x00\x08\x00\x00\x00",
        b"\x00",
    )?;
    run_row(
        rt,
        b"row 4",
        4,
        b"\x80\x00\x00\x00\x06\x00\x00\x00",
        b"\x00",
    )
}

// Rows 5 to 7.
fn run_entries(rt: &impl Print) -> io::Result<()> {
    run_row(
        rt,
        b"row 5",
        4,
        b"\x00\x80\x00\x00\x0c\x00\x00\x00\x00\x0b",
        b"\x00",
    )?;
    run_row(
        rt,
        b"row 6",
        4,
        b"\x00\x80\x00\x00\x0c\x00\x00\x00\x00\x0a",
        b"\x00",
    )?;
    run_row(
        rt,
        b"row 7",
        5,
        b"\x00\x80\x00\x00\x00\x00\x00\x00\x00\x01\x01\xc0",
        b"\x00",
    )?;
    run_row(
        rt,
        b"row 7 ending c1",
        5,
        b"\x00\x80\x00\x00\x00\x00\x00\x00\x00\x01\x01\xc1",
        b"\x00",
    )
}

// Rows 8 to 10.
fn run_others(rt: &impl Print) -> io::Result<()> {
    run_row(rt, b"row 8", 5, b"\x00\x00\x00\x00\x02\x8f\x00", b"\x00")?;
    run_row(rt, b"row 9", 3, b"\x00\x00\x80\x00\x01\x40\x10", b"\x80")?;
    run_row(
        rt,
        b"row 10",
        4,
        b"\x80\x80\x80\x00\x00\x00\x00\x00\x02\x01\x00\x02\x00",
        b"\x80",
    )?;
    run_row(
        rt,
        b"row 10, last word 0",
        4,
        b"\x80\x80\x80\x00\x00\x00\x00\x00\x02\x01\x00\x00\x00",
        b"\x80",
    )
}

// A block of one read.
fn run_row(rt: &impl Print, label: &[u8], size: u32, dna: &[u8], ns: &[u8]) -> io::Result<()> {
    let mut block = block_buffer();
    let length = write_block(equal_reads(1, size, size), dna, b"", ns, &mut block);
    show(rt, label, part(&block, 0, length), room_of(9, 2))
}

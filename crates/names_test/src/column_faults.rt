// Names sections that earn 40: their tables, their columns, and columns that are not the split of
// their names.
use crate::block::NAMES_FLAG;
use crate::sections::{run_section, run_two};
use std::io;

pub fn run_column_faults(rt: &impl Print) -> io::Result<()> {
    run_tables(rt)?;
    run_sizes(rt)?;
    run_types(rt)?;
    run_numbers(rt)?;
    run_strings(rt)?;
    run_bytes(rt)?;
    run_natures(rt)
}

// Tables that are not there, or have no columns.
fn run_tables(rt: &impl Print) -> io::Result<()> {
    run_section(rt, b"40 no bytes", NAMES_FLAG, b"")?;
    run_section(rt, b"40 three bytes", NAMES_FLAG, b"\x01\x00\x00")?;
    run_section(rt, b"40 token count 0", NAMES_FLAG, b"\x00\x00\x00\x00")?;
    run_section(rt, b"40 no types", NAMES_FLAG, b"\x01\x00\x00\x00")?;
    run_section(
        rt,
        b"40 2^32 - 1 columns",
        NAMES_FLAG,
        b"\xff\xff\xff\xff\x00",
    )
}

// One column of the strings r and s, whose size is 4.
fn run_sizes(rt: &impl Print) -> io::Result<()> {
    run_section(
        rt,
        b"0 one column",
        NAMES_FLAG,
        b"\x01\x00\x00\x00\x00\x04\x00\x00\x00\x00\x00\x00\x00r\0s\0",
    )?;
    run_section(
        rt,
        b"40 a byte left",
        NAMES_FLAG,
        b"\x01\x00\x00\x00\x00\x04\x00\x00\x00\x00\x00\x00\x00r\0s\0\0",
    )?;
    run_section(
        rt,
        b"40 a byte missing",
        NAMES_FLAG,
        b"\x01\x00\x00\x00\x00\x05\x00\x00\x00\x00\x00\x00\x00r\0s\0",
    )?;
    run_section(
        rt,
        b"40 size 2^64 - 1",
        NAMES_FLAG,
        b"\x01\x00\x00\x00\x00\xff\xff\xff\xff\xff\xff\xff\xffr\0s\0",
    )
}

// Types that are refused.
fn run_types(rt: &impl Print) -> io::Result<()> {
    run_two(
        rt,
        b"40 type 1",
        b"\x00\x01",
        b"r\0r\0",
        b"\x07\x00\x00\x00\x00\x00\x00\x00\x02",
    )?;
    run_two(
        rt,
        b"40 type 2",
        b"\x00\x02",
        b"r\0r\0",
        b"\x07\x00\x00\x00\x00\x00\x00\x00\x02",
    )?;
    run_two(
        rt,
        b"40 type 6",
        b"\x00\x06",
        b"r\0r\0",
        b"\x07\x00\x00\x00\x00\x00\x00\x00\x02",
    )
}

// A negative start, a start and a sum of 10^18, and too few and too many steps.
fn run_numbers(rt: &impl Print) -> io::Result<()> {
    run_number(rt, b"40 start -1", b"\xff\xff\xff\xff\xff\xff\xff\xff\x02")?;
    run_number(
        rt,
        b"40 start 10^18",
        b"\x00\x00\x64\xa7\xb3\xb6\xe0\x0d\x00",
    )?;
    run_number(rt, b"40 sum 10^18", b"\xff\xff\x63\xa7\xb3\xb6\xe0\x0d\x01")?;
    run_number(rt, b"40 no step", b"\x07\x00\x00\x00\x00\x00\x00\x00")?;
    run_number(
        rt,
        b"40 two steps",
        b"\x07\x00\x00\x00\x00\x00\x00\x00\x02\x02",
    )?;
    run_number(rt, b"40 half a start", b"\x07\x00\x00\x00")
}

// Strings that are not one a read.
fn run_strings(rt: &impl Print) -> io::Result<()> {
    run_string(rt, b"40 no zero byte", b"r\0r")?;
    run_string(rt, b"40 one string", b"r\0")?;
    run_string(rt, b"40 three strings", b"r\0r\0r\0")?;
    run_string(rt, b"40 an empty string", b"r\0\0")
}

// Bytes that no name has, beside those that are the first and the last.
fn run_bytes(rt: &impl Print) -> io::Result<()> {
    run_string(rt, b"0 bytes 32 and 126", b" \0~\0")?;
    run_string(rt, b"40 byte 31", b"\x1f\0r\0")?;
    run_string(rt, b"40 byte 127", b"r\0\x7f\0")?;
    run_string(rt, b"40 byte 128", b"r\0\x80\0")
}

// Two neighbours of one nature, of digits and of others, and a token of both.
fn run_natures(rt: &impl Print) -> io::Result<()> {
    run_string(rt, b"40 digits and digits", b"r\x007\0")?;
    run_two(
        rt,
        b"40 others and others",
        b"\x00\x00",
        b"r\0r\0",
        b"7\0s\0",
    )?;
    run_two(
        rt,
        b"40 numbers and numbers",
        b"\x04\x04",
        b"\x07\x00\x00\x00\x00\x00\x00\x00\x02",
        b"\x07\x00\x00\x00\x00\x00\x00\x00\x02",
    )?;
    run_string(rt, b"40 digits in a string", b"r\0r7r\0")
}

// ---- One case

// The strings r and r, then this column of numbers with steps of 8 bits.
fn run_number(rt: &impl Print, label: &[u8], set: &[u8]) -> io::Result<()> {
    run_two(rt, label, b"\x00\x04", b"r\0r\0", set)
}

// This column of strings, then the numbers 7 and 9.
fn run_string(rt: &impl Print, label: &[u8], set: &[u8]) -> io::Result<()> {
    run_two(
        rt,
        label,
        b"\x00\x04",
        set,
        b"\x07\x00\x00\x00\x00\x00\x00\x00\x02",
    )
}

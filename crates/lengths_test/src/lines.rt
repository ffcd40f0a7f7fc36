// What is printed: words, numbers and bytes with a space before each.
use std::io;

// The first word of a line.
pub fn start_line(rt: &impl Print, word: &[u8]) -> io::Result<()> {
    rt.write_all(word)
}

pub fn put_word(rt: &impl Print, word: &[u8]) -> io::Result<()> {
    rt.write_all(b" ")?;
    rt.write_all(word)
}

pub fn put_number(rt: &impl Print, number: u64) -> io::Result<()> {
    print!(rt; " {number}")
}

// A byte as two hexadecimal digits.
pub fn put_byte(rt: &impl Print, byte: u8) -> io::Result<()> {
    print!(rt; " {byte:02x}")
}

pub fn put_bytes(rt: &impl Print, bytes: &[u8]) -> io::Result<()> {
    for byte in bytes {
        put_byte(rt, *byte)?;
    }
    Ok(())
}

pub fn put_numbers(rt: &impl Print, numbers: &[u32]) -> io::Result<()> {
    for number in numbers {
        put_number(rt, u64::from(*number))?;
    }
    Ok(())
}

// Whether a walk used all of its section.
pub fn put_ended(rt: &impl Print, ended: bool) -> io::Result<()> {
    if ended {
        put_word(rt, b"ended")
    } else {
        put_word(rt, b"not ended")
    }
}

pub fn end_line(rt: &impl Print) -> io::Result<()> {
    rt.write_all(b"\n")
}

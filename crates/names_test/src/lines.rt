// What is printed: text, and words and numbers with a space before each.
use std::io;

pub fn put_text(rt: &impl Print, text: &[u8]) -> io::Result<()> {
    rt.write_all(text)
}

pub fn put_word(rt: &impl Print, word: &[u8]) -> io::Result<()> {
    put_text(rt, b" ")?;
    put_text(rt, word)
}

pub fn put_number(rt: &impl Print, number: u64) -> io::Result<()> {
    print!(rt; " {number}")
}

pub fn put_bytes(rt: &impl Print, bytes: &[u8]) -> io::Result<()> {
    for byte in bytes {
        put_number(rt, u64::from(*byte))?;
    }
    Ok(())
}

pub fn put_numbers(rt: &impl Print, numbers: &[u32]) -> io::Result<()> {
    for number in numbers {
        put_number(rt, u64::from(*number))?;
    }
    Ok(())
}

pub fn end_line(rt: &impl Print) -> io::Result<()> {
    put_text(rt, b"\n")
}

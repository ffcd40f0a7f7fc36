// What is printed: words and numbers with a space before each.
use std::io;

// The first word of a line.
pub fn start_line(rt: &impl Print, word: &[u8]) -> io::Result<()> {
    rt.write_all(word)
}

pub fn put_word(rt: &impl Print, word: &[u8]) -> io::Result<()> {
    rt.write_all(b" ")?;
    rt.write_all(word)
}

pub fn put_number(rt: &impl Print, number: u64) -> io::Result<()> {
    print!(rt; " {number}")
}

pub fn end_line(rt: &impl Print) -> io::Result<()> {
    rt.write_all(b"\n")
}

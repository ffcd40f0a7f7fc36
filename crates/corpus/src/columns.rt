// Lines of the expected text: the case's index, a word and numbers, one space between.
use std::io;

// The index of the case and the first word.
pub fn start_line(rt: &impl Print, index: u32, word: &[u8]) -> io::Result<()> {
    print!(rt; "{index} ")?;
    rt.write_all(word)
}

// One number more.
pub fn put_column(rt: &impl Print, number: u64) -> io::Result<()> {
    print!(rt; " {number}")
}

pub fn end_line(rt: &impl Print) -> io::Result<()> {
    rt.write_all(b"\n")
}

// Says of a case file what is wrong with it.
pub fn put_fault(rt: &impl Print, file: &[u8], fault: &[u8]) -> io::Result<()> {
    rt.write_all(b"corpus: ")?;
    rt.write_all(file)?;
    rt.write_all(b": ")?;
    rt.write_all(fault)?;
    end_line(rt)
}

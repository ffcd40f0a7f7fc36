// What is printed: text, and words, numbers and bytes with a space before each; and buffers, which
// are filled with a mark before a call, so that what it left is seen.
use std::io;

// What every lent byte and every lent end holds before a call.
pub const UNTOUCHED_BYTE: u8 = b'.';

pub const UNTOUCHED_END: u32 = 99;

pub fn put_text(rt: &impl Print, text: &[u8]) -> io::Result<()> {
    rt.write_all(text)
}

pub fn put_word(rt: &impl Print, word: &[u8]) -> io::Result<()> {
    put_text(rt, b" ")?;
    put_text(rt, word)
}

pub fn put_number(rt: &impl Print, number: u64) -> io::Result<()> {
    print!(rt; " {number}")
}

pub fn put_numbers(rt: &impl Print, numbers: &[u32]) -> io::Result<()> {
    for number in numbers {
        put_number(rt, u64::from(*number))?;
    }
    Ok(())
}

// A byte is two hexadecimal digits.
pub fn put_bytes(rt: &impl Print, bytes: &[u8]) -> io::Result<()> {
    for byte in bytes {
        print!(rt; " {byte:02x}")?;
    }
    Ok(())
}

pub fn end_line(rt: &impl Print) -> io::Result<()> {
    put_text(rt, b"\n")
}

// ---- Buffers

// Bytes, from a place on and so many of them, and ends; or that both hold what they held before.
pub fn put_buffers(
    rt: &impl Print,
    bytes: &[u8],
    ends: &[u32],
    from: usize,
    most: usize,
) -> io::Result<()> {
    put_text(rt, b",")?;
    if bytes_untouched(bytes) && ends_untouched(ends) {
        return put_word(rt, b"untouched");
    }
    put_word(rt, part(bytes, from, most))?;
    put_numbers(rt, ends)
}

pub fn bytes_untouched(bytes: &[u8]) -> bool {
    bytes.iter().all(|byte| *byte == UNTOUCHED_BYTE)
}

fn ends_untouched(ends: &[u32]) -> bool {
    ends.iter().all(|end| *end == UNTOUCHED_END)
}

// The part of some bytes from `from` on, of at most so many.
pub fn part(bytes: &[u8], from: usize, most: usize) -> &[u8] {
    let rest = &bytes[from.min(bytes.len())..];
    &rest[..most.min(rest.len())]
}

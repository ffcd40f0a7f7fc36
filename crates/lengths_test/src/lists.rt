// Lists of read lengths: the size section of each, and the lengths that a walk over it gives. A
// list of equal lengths has its section too; a block would have flag 0x1 and none.
use crate::lines::{end_line, put_bytes, put_ended, put_number, put_numbers, put_word, start_line};
use crate::parts::first_part;
use crate::section::{put_ends, write_sizes};
use lengths::write::all_equal;
use std::io;

// No list is longer.
const LIST_CAPACITY: usize = 16;

// No list's section is longer.
const SECTION_CAPACITY: usize = 64;

// The specification's lists, then the largest length of one word, the longest read, and two groups.
pub fn run_lists(rt: &impl Print) -> io::Result<()> {
    run_list(rt, &[5, 5, 300])?;
    run_list(rt, &[256])?;
    run_list(rt, &[32768])?;
    run_list(rt, &[65535])?;
    run_list(rt, &[32767])?;
    run_list(rt, &[100_000])?;
    run_list(rt, &[5, 5, 5, 5, 5, 5, 5, 5, 5, 7])
}

// The four lines of a list.
fn run_list(rt: &impl Print, sizes: &[u32]) -> io::Result<()> {
    start_line(rt, b"lengths")?;
    put_numbers(rt, sizes)?;
    end_line(rt)?;
    let mut ends = [0u32; LIST_CAPACITY];
    put_ends(sizes, &mut ends);
    put_list(rt, first_part(&ends, sizes.len()))
}

// Whether all lengths are equal, the bytes of the section, and the lengths that they give.
fn put_list(rt: &impl Print, ends: &[u32]) -> io::Result<()> {
    start_line(rt, b"all equal")?;
    put_equal(rt, all_equal(ends))?;
    end_line(rt)?;
    let mut space = [0u8; SECTION_CAPACITY];
    let size = write_sizes(ends, &mut space);
    put_section(rt, first_part(&space, size), ends.len())
}

fn put_equal(rt: &impl Print, equal: bool) -> io::Result<()> {
    if equal {
        put_word(rt, b"yes")
    } else {
        put_word(rt, b"no")
    }
}

// The bytes of a section, and the lengths of so many reads.
fn put_section(rt: &impl Print, section: &[u8], reads: usize) -> io::Result<()> {
    start_line(rt, b"size section")?;
    put_bytes(rt, section)?;
    end_line(rt)?;
    start_line(rt, b"walked")?;
    put_ended(rt, put_walk(rt, section, reads)?)?;
    end_line(rt)
}

// The lengths, read by read; whether the walk ended where the section does.
fn put_walk(rt: &impl Print, section: &[u8], reads: usize) -> io::Result<bool> {
    let mut cursor = lengths::first_cursor(false, 0);
    for _read in 0..reads {
        let Some((size, next)) = lengths::next_length(section, cursor) else {
            return Ok(false);
        };
        put_number(rt, u64::from(size))?;
        cursor = next;
    }
    Ok(lengths::cursor_ended(section, cursor))
}

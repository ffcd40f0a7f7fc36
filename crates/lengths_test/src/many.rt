// The largest block: 50,000 reads of 5 and 300 letters in turn.
use crate::lines::{end_line, put_bytes, put_ended, put_number, put_word, start_line};
use crate::parts::first_part;
use crate::section::{put_ends, write_sizes};
use header::faults::MAX_READS;
use std::io;

// A group takes 2 flag bytes, 4 bytes and 4 words.
const SECTION_CAPACITY: usize = 87_500;

// How many bytes of the section are printed: one group.
const GROUP_BYTES: usize = 14;

// What a walk over lengths gives.
#[derive(Clone, Copy)]
struct Walked {
    sum: u64,
    // It ended where the section does.
    ended: bool,
}

pub fn run_many(rt: &impl Print) -> io::Result<()> {
    let mut sizes = [0u32; MAX_READS];
    put_lengths(&mut sizes);
    let mut ends = [0u32; MAX_READS];
    put_ends(&sizes, &mut ends);
    let mut space = [0u8; SECTION_CAPACITY];
    let size = write_sizes(&ends, &mut space);
    start_line(rt, b"reads")?;
    put_number(rt, MAX_READS as u64)?;
    put_word(rt, b"section bytes")?;
    put_number(rt, size as u64)?;
    put_word(rt, b"first group")?;
    put_bytes(rt, first_part(&space, GROUP_BYTES))?;
    end_line(rt)?;
    put_walked(rt, walk(first_part(&space, size), MAX_READS as u32))
}

// The length of each read.
fn put_lengths(sizes: &mut [u32]) {
    for (i, size) in sizes.iter_mut().enumerate() {
        *size = read_length(i);
    }
}

// 5 for the reads 0, 2, 4 .., 300 for the others.
fn read_length(i: usize) -> u32 {
    if i % 2 == 0 {
        return 5;
    }
    300
}

// The sum of the lengths, read by read; of those before the first that is refused.
fn walk(section: &[u8], reads: u32) -> Walked {
    let mut cursor = lengths::first_cursor(false, 0);
    let mut sum: u64 = 0;
    for _read in 0..reads {
        let Some((size, next)) = lengths::next_length(section, cursor) else {
            return Walked { sum, ended: false };
        };
        sum += u64::from(size);
        cursor = next;
    }
    Walked {
        sum,
        ended: lengths::cursor_ended(section, cursor),
    }
}

fn put_walked(rt: &impl Print, walked: Walked) -> io::Result<()> {
    start_line(rt, b"walked sum")?;
    put_number(rt, walked.sum)?;
    put_ended(rt, walked.ended)?;
    end_line(rt)
}

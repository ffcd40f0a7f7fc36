// Cases of read lengths: one of the numbers 2 to 10, or the count, the sum and the hash of the
// lengths.
use crate::columns::{end_line, put_column, start_line};
use cases::hash::{HASH_START, hash_number};
use dna::refusals::Refusal;
use header::faults::header_fault;
use header::sections::SIZE_SECTION;
use header::table::Table;
use lengths::SizeCursor;
use lengths::blocks::lengths_fault;
use std::io;

// What the lengths amount to.
#[derive(Clone, Copy)]
struct Summary {
    count: u32,
    sum: u64,
    // Of each length's four bytes.
    hash: u64,
}

// What a refused case has in its place.
const NO_LENGTHS: Summary = Summary {
    count: 0,
    sum: 0,
    hash: HASH_START,
};

// The line of a case.
pub fn run_lengths(rt: &impl Print, index: u32, input: &[u8]) -> io::Result<()> {
    start_line(rt, index, b"lengths")?;
    match read_lengths(input) {
        Ok(summary) => put_columns(rt, 0, summary)?,
        Err(refusal) => put_columns(rt, refusal.number(), NO_LENGTHS)?,
    }
    end_line(rt)
}

// The lengths of a block, or the first of 2 to 10 that it earns.
fn read_lengths(input: &[u8]) -> Result<Summary, Refusal> {
    header_fault(input)?;
    lengths_fault(input)?;
    let table = Table { input };
    let first = lengths::first_cursor(table.same_length(), table.l_read());
    Ok(summarize(ora::section(input, SIZE_SECTION), first, table.read_count()))
}

// The number, block 0 and read 0, the count, the sum and the hash.
fn put_columns(rt: &impl Print, number: u32, summary: Summary) -> io::Result<()> {
    put_column(rt, u64::from(number))?;
    put_column(rt, 0)?;
    put_column(rt, 0)?;
    put_column(rt, u64::from(summary.count))?;
    put_column(rt, summary.sum)?;
    put_column(rt, summary.hash)
}

// The count of so many lengths, and the sum and the hash, read by read; of those before the first
// that is refused.
fn summarize(section: &[u8], first: SizeCursor, count: u32) -> Summary {
    let mut cursor = first;
    let mut sum: u64 = 0;
    let mut hash = HASH_START;
    for _read in 0..count {
        let Some((size, next)) = lengths::next_length(section, cursor) else {
            break;
        };
        sum += u64::from(size);
        hash = hash_number(hash, size);
        cursor = next;
    }
    Summary { count, sum, hash }
}

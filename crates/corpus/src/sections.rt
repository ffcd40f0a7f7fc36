// Cases of sections: what section, section_span and block_id give.
use crate::columns::{end_line, put_column, start_line};
use cases::hash::hash_of;
use std::io;

// How many section numbers are asked for: one more than there are sections.
const ASKED_SECTIONS: u64 = 10;

// The block's b_id, then its sections.
pub fn run_sections(rt: &impl Print, index: u32, input: &[u8]) -> io::Result<()> {
    start_line(rt, index, b"sections")?;
    put_column(rt, ora::block_id(input))?;
    end_line(rt)?;
    for number in 0..ASKED_SECTIONS {
        run_section(rt, index, input, number)?;
    }
    Ok(())
}

// Where a section stands, and the hash of its bytes.
fn run_section(rt: &impl Print, index: u32, input: &[u8], number: u64) -> io::Result<()> {
    start_line(rt, index, b"section")?;
    put_column(rt, number)?;
    let span = ora::section_span(input, number);
    put_column(rt, span.offset)?;
    put_column(rt, span.size)?;
    put_column(rt, hash_of(ora::section(input, number)))?;
    end_line(rt)
}

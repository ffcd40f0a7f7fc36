// The answers of the calls in words and numbers.
use case_text::print::{put_number, put_word};
use dna::Counts;
use dna::refusals::Refusal;
use format::{BlockOutcome, FileOutcome};
use std::io;

// An answer on a block: its length and counts, or the number and the read.
pub fn put_block_outcome(rt: &impl Print, outcome: BlockOutcome) -> io::Result<()> {
    match outcome {
        Ok(block) => put_accepted(rt, block.bytes, block.counts),
        Err(refused) => {
            put_refused(rt, refused.refusal)?;
            put_number(rt, refused.read)
        }
    }
}

// An answer on a file: its blocks and sums, or the number, the block and the read.
pub fn put_file_outcome(rt: &impl Print, outcome: FileOutcome) -> io::Result<()> {
    match outcome {
        Ok(file) => put_accepted(rt, file.blocks, file.counts),
        Err(refused) => {
            put_refused(rt, refused.refusal)?;
            put_number(rt, refused.block)?;
            put_number(rt, refused.read)
        }
    }
}

// The length of a block or the number of blocks, then the counts.
fn put_accepted(rt: &impl Print, size: u64, counts: Counts) -> io::Result<()> {
    put_word(rt, b"accepted")?;
    put_number(rt, size)?;
    put_number(rt, counts.reads)?;
    put_number(rt, counts.letters)?;
    put_number(rt, counts.entries)?;
    put_number(rt, counts.differences)?;
    put_number(rt, counts.top)
}

fn put_refused(rt: &impl Print, refusal: Refusal) -> io::Result<()> {
    put_word(rt, b"refused")?;
    put_number(rt, u64::from(refusal.number()))
}

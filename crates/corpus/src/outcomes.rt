// The ten columns of an outcome (rust/second/CORPUS.md): number, block, read, blocks, length, and
// the five counts.
use crate::columns::put_column;
use dna::Counts;
use dna::refusals::Refusal;
use format::{BlockOutcome, EncodeOutcome, FileOutcome};
use std::io;

// The columns of an answer on a block.
pub fn put_block_outcome(rt: &impl Print, outcome: BlockOutcome) -> io::Result<()> {
    match outcome {
        Ok(block) => put_columns(rt, 0, 0, 0, 0, block.bytes, block.counts),
        Err(refused) => put_refusal(rt, refused.refusal, 0, refused.read),
    }
}

// The columns of an answer on a file.
pub fn put_file_outcome(rt: &impl Print, outcome: FileOutcome) -> io::Result<()> {
    match outcome {
        Ok(file) => put_columns(rt, 0, 0, 0, file.blocks, 0, file.counts),
        Err(refused) => put_refusal(rt, refused.refusal, refused.block, refused.read),
    }
}

// The columns of an answer of the writer, which counts nothing.
pub fn put_encode_outcome(rt: &impl Print, outcome: EncodeOutcome) -> io::Result<()> {
    match outcome {
        Ok(bytes) => put_columns(rt, 0, 0, 0, 0, bytes, Counts::default()),
        Err(refusal) => put_refusal(rt, refusal, 0, 0),
    }
}

// The columns of a refusal: all but its number and its indices are 0.
fn put_refusal(rt: &impl Print, refusal: Refusal, block: u64, read: u64) -> io::Result<()> {
    put_columns(rt, refusal.number(), block, read, 0, 0, Counts::default())
}

fn put_columns(
    rt: &impl Print,
    number: u32,
    block: u64,
    read: u64,
    blocks: u64,
    bytes: u64,
    counts: Counts,
) -> io::Result<()> {
    put_column(rt, u64::from(number))?;
    put_column(rt, block)?;
    put_column(rt, read)?;
    put_column(rt, blocks)?;
    put_column(rt, bytes)?;
    put_column(rt, counts.reads)?;
    put_column(rt, counts.letters)?;
    put_column(rt, counts.entries)?;
    put_column(rt, counts.differences)?;
    put_column(rt, counts.top)
}

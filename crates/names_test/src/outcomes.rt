// The answers of the calls in words and numbers.
use crate::lines::{put_number, put_word};
use format::BlockOutcome;
use std::io;

// An answer on a block: its length and counts, or the number and the read.
pub fn put_block_outcome(rt: &impl Print, outcome: BlockOutcome) -> io::Result<()> {
    match outcome {
        Ok(block) => {
            put_word(rt, b"accepted")?;
            put_number(rt, block.bytes)?;
            put_number(rt, block.counts.reads)?;
            put_number(rt, block.counts.letters)?;
            put_number(rt, block.counts.entries)?;
            put_number(rt, block.counts.differences)?;
            put_number(rt, block.counts.top)
        }
        Err(refused) => {
            put_word(rt, b"refused")?;
            put_number(rt, u64::from(refused.refusal.number()))?;
            put_number(rt, refused.read)
        }
    }
}

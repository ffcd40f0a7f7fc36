// The definitions of headers, blocks and files stand in specs/, their theorems in proofs/. The only
// code is what the public calls answer; specs/Answered.antt gives the paper's number and values for
// each case. An index and a length are u64 in every answer.
#![tactic(auto)]

ghost use Rattle.std.specs.Prelude.{◌≡◌};

use dna::Counts;
use dna::refusals::{BlockRefusal, Refusal};

// A block that is accepted: its length in bytes, and its counts.
#[derive(Clone, Copy)]
pub struct BlockSummary {
    pub bytes: u64,
    pub counts: Counts,
}

// A file that is accepted: the number of its blocks, and the sums of their counts, each modulo
// 2 ^ 64.
#[derive(Clone, Copy)]
pub struct FileSummary {
    pub blocks: u64,
    pub counts: Counts,
}

// A refusal of a file, and the indices of the block and of the read.
#[derive(Clone, Copy, Debug, PartialEq, Eq)]
pub struct FileRefusal {
    pub refusal: Refusal,
    pub block: u64,
    pub read: u64,
}

// The answer on one block, judged or decoded.
pub type BlockOutcome = Result<BlockSummary, BlockRefusal>;

// The answer on a file.
pub type FileOutcome = Result<FileSummary, FileRefusal>;

// The answer of the writer: the length of the block in bytes.
pub type EncodeOutcome = Result<u64, Refusal>;

// Judging a file (01, Numbers of refusal: a file is judged block by block): one pass over its
// bytes, nothing copied. The contract of the public call cites specs/FileAnswer.antt of format; it
// has no `requires`.
#![tactic(auto)]

ghost use Rattle.std.specs.Prelude.{◌≡◌, ◌==◌};
ghost use Rattle.format.specs.Answered.{counted_of, outcome_of_file, accepts_file};
ghost use Rattle.format.specs.FileAnswer.{validated};
ghost use Rattle.files.specs.After.{wrapped_plus};

use blocks::validate_block;
use dna::Counts;
use dna::refusals::{BlockRefusal, Refusal};
use format::{FileOutcome, FileRefusal, FileSummary};
use reference::reference_size_wrong;

// Judges a file: the number of its blocks and the sums of their counts modulo 2 ^ 64, or its first
// refusal with the indices of the block and of the read.
pub fn validate(bases: u64, reference: &[u8], file: &[u8]) -> FileOutcome
    ensures { (outcome_of_file result
        ≡ validated bases reference.now file.now)
        × (accepts_file result
        ≡ ((validated bases reference.now file.now).number == 0)) }
{
    if reference_size_wrong(bases, reference) {
        return Err(in_file(Refusal::ReferenceSizeWrong.into(), 0));
    }
    let mut at: usize = 0;
    let mut blocks: u64 = 0;
    let mut counts = Counts::default();
    while at < file.len() {
        match validate_block(bases, reference, &file[at..]) {
            Err(refused) => return Err(in_file(refused, blocks)),
            Ok(block) => {
                counts = wrapping_plus(counts, block.counts);
                at += block.bytes as usize;
                blocks += 1;
            }
        }
    }
    Ok(FileSummary { blocks, counts })
}

// A refusal of the block with an index.
fn in_file(refused: BlockRefusal, block: u64) -> FileRefusal
    ensures { result ≡ record {
      refusal = refused.refusal;
      block = block;
      read = refused.read;
    } }
{
    FileRefusal {
        refusal: refused.refusal,
        block,
        read: refused.read,
    }
}

// Counts added, each modulo 2 ^ 64.
fn wrapping_plus(a: Counts, b: Counts) -> Counts
    ensures { counted_of result ≡ wrapped_plus (counted_of a) (counted_of b) }
{
    Counts {
        reads: a.reads.wrapping_add(b.reads),
        letters: a.letters.wrapping_add(b.letters),
        entries: a.entries.wrapping_add(b.entries),
        differences: a.differences.wrapping_add(b.differences),
        top: a.top.wrapping_add(b.top),
    }
}

// The public calls as C functions, as include/ora.h declares them: a slice is a pointer and a
// length, and the answer sixteen numbers. Each is thin over the crate ora; the contracts cite the
// same definitions, through specs/Slots.antt, and none has a `requires`.
#![tactic(auto)]

ghost use Rattle.std.specs.Prelude.{◌≡◌, ◌∷◌, replicate};
ghost use Rattle.dna.specs.Refused.{refusal_number};
ghost use Rattle.format.specs.Outcome.{refusal};
ghost use Rattle.format.specs.Answered.{
  counted_of,
  outcome_of_block,
  outcome_of_file,
  outcome_of_encode,
};
ghost use Rattle.format.specs.BlockAnswer.{
  span_answer,
  id_answer,
  length_answer,
  validated_block,
  buffers_of,
  decoded,
  decoded_buffers,
};
ghost use Rattle.format.specs.FileAnswer.{validated};
ghost use Rattle.format.specs.EncodeAnswer.{lent, encoded, encoded_buffer};
ghost use Rattle.capi.specs.Slots.{slots, accepted_slots, section_slots};

use dna::Counts;
use dna::refusals::Refusal;
use format::{BlockOutcome, EncodeOutcome, FileOutcome};

// Decodes the block at the input's start.
#[unsafe(no_mangle)]
pub extern "C" fn ora_decode(
    bases: u64,
    reference: &[u8],
    input: &[u8],
    letters: &mut [u8],
    ends: &mut [u32],
    names: &mut [u8],
    name_ends: &mut [u32],
    answer: &mut [u64; 16],
) -> u64
    ensures { (result ≡ (decoded bases reference.now input.now
        (buffers_of letters.old ends.old names.old
        name_ends.old)).number)
        × (answer.new
        ≡ slots (decoded bases reference.now input.now
        (buffers_of letters.old ends.old names.old
        name_ends.old)))
        × (buffers_of letters.new ends.new names.new
        name_ends.new
        ≡ decoded_buffers bases reference.now input.now
        (buffers_of letters.old ends.old names.old
        name_ends.old)) }
{
    let outcome = ora::decode(bases, reference, input, letters, ends, names, name_ends);
    *answer = block_slots(outcome);
    answer[0]
}

// Judges the block at the input's start.
#[unsafe(no_mangle)]
pub extern "C" fn ora_validate_block(
    bases: u64,
    reference: &[u8],
    input: &[u8],
    answer: &mut [u64; 16],
) -> u64
    ensures { (result
        ≡ (validated_block bases reference.now input.now).number)
        × (answer.new
        ≡ slots (validated_block bases reference.now input.now)) }
{
    let outcome = ora::validate_block(bases, reference, input);
    *answer = block_slots(outcome);
    answer[0]
}

// Judges a file.
#[unsafe(no_mangle)]
pub extern "C" fn ora_validate(
    bases: u64,
    reference: &[u8],
    file: &[u8],
    answer: &mut [u64; 16],
) -> u64
    ensures { (result ≡ (validated bases reference.now file.now).number)
        × (answer.new
        ≡ slots (validated bases reference.now file.now)) }
{
    let outcome = ora::validate(bases, reference, file);
    *answer = file_slots(outcome);
    answer[0]
}

// Writes a block.
#[unsafe(no_mangle)]
pub extern "C" fn ora_encode(
    bases: u64,
    reference: &[u8],
    letters: &[u8],
    ends: &[u32],
    names: &[u8],
    name_ends: &[u32],
    positions: &[u32],
    strands: &[u8],
    lefts: &[u8],
    rights: &[u8],
    b_id: u64,
    c_time: u64,
    out: &mut [u8],
    answer: &mut [u64; 16],
) -> u64
    ensures { (result ≡ (encoded bases reference.now
        (lent letters.now ends.now names.now
        name_ends.now positions.now strands.now
        lefts.now rights.now b_id c_time)
        out.old).number)
        × (answer.new
        ≡ slots (encoded bases reference.now
        (lent letters.now ends.now names.now
        name_ends.now positions.now strands.now
        lefts.now rights.now b_id c_time)
        out.old))
        × (out.new
        ≡ encoded_buffer bases reference.now
        (lent letters.now ends.now names.now
        name_ends.now positions.now strands.now
        lefts.now rights.now b_id c_time)
        out.old) }
{
    let outcome = ora::encode(
        bases, reference, letters, ends, names, name_ends, positions, strands, lefts, rights, b_id,
        c_time, out,
    );
    *answer = encode_slots(outcome);
    answer[0]
}

// Where a section of the block at the input's start stands; 0, since nothing is refused.
#[unsafe(no_mangle)]
pub extern "C" fn ora_section(input: &[u8], number: u64, answer: &mut [u64; 16]) -> u64
    ensures { (result ≡ 0)
        × (answer.new ≡ section_slots (span_answer input.now number)) }
{
    let span = ora::section_span(input, number);
    *answer = first_slots(0, 0, 0, span.offset, span.size, 0, 0, 0, 0);
    0
}

// The length of the block at the input's start, by its header.
#[unsafe(no_mangle)]
pub extern "C" fn ora_block_length(input: &[u8]) -> u64
    ensures { result ≡ length_answer input.now }
{
    ora::block_length(input)
}

// The b_id of the block at the input's start.
#[unsafe(no_mangle)]
pub extern "C" fn ora_block_id(input: &[u8]) -> u64
    ensures { result ≡ id_answer input.now }
{
    ora::block_id(input)
}

// ---- Answers as numbers

fn block_slots(outcome: BlockOutcome) -> [u64; 16]
    ensures { result ≡ slots (outcome_of_block outcome) }
{
    match outcome {
        Ok(block) => accepted_slots(block.bytes, block.counts),
        Err(refused) => refused_slots(refused.refusal, 0, refused.read),
    }
}

fn file_slots(outcome: FileOutcome) -> [u64; 16]
    ensures { result ≡ slots (outcome_of_file outcome) }
{
    match outcome {
        Ok(file) => accepted_slots(file.blocks, file.counts),
        Err(refused) => refused_slots(refused.refusal, refused.block, refused.read),
    }
}

fn encode_slots(outcome: EncodeOutcome) -> [u64; 16]
    ensures { result ≡ slots (outcome_of_encode outcome) }
{
    match outcome {
        Ok(bytes) => first_slots(0, 0, 0, bytes, 0, 0, 0, 0, 0),
        Err(refusal) => refused_slots(refusal, 0, 0),
    }
}

// The slots of an accepted block or file.
fn accepted_slots(size: u64, counts: Counts) -> [u64; 16]
    ensures { result ≡ accepted_slots size (counted_of counts) }
{
    first_slots(
        0,
        0,
        0,
        size,
        counts.reads,
        counts.letters,
        counts.entries,
        counts.differences,
        counts.top,
    )
}

// The slots of a refusal: all but its number and its indices are 0.
fn refused_slots(refused: Refusal, block: u64, read: u64) -> [u64; 16]
    ensures { result ≡ slots (refusal (refusal_number refused) block read) }
{
    first_slots(u64::from(refused.number()), block, read, 0, 0, 0, 0, 0, 0)
}

// The slots that are ever used; the others are 0.
fn first_slots(a: u64, b: u64, c: u64, d: u64, e: u64, f: u64, g: u64, h: u64, i: u64) -> [u64; 16]
    ensures { result ≡ a ∷ b ∷ c ∷ d ∷ e ∷ f ∷ g ∷ h ∷ i ∷ replicate 7 0 }
{
    [a, b, c, d, e, f, g, h, i, 0, 0, 0, 0, 0, 0, 0]
}

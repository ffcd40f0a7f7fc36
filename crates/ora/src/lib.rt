// The public calls. Each contract is an equation between the answer and a definition, with the
// final content of every lent buffer, and none has a `requires`: any input is answered. Read
// specs/BlockAnswer.antt, FileAnswer.antt and EncodeAnswer.antt of format for what each call
// answers. The enums of the answers are put into the paper's terms by specs/Answered.antt there,
// the struct of this interface by specs/Answers.antt.
#![tactic(auto)]

ghost use Rattle.std.specs.Prelude.{◌≡◌, eqb};
ghost use Rattle.format.specs.Answered.{
  outcome_of_block,
  outcome_of_file,
  accepts_file,
  outcome_of_encode,
};
ghost use Rattle.format.specs.BlockAnswer.{
  section_answer,
  span_answer,
  id_answer,
  length_answer,
  validated_block,
  buffers_of,
  decoded,
  decoded_buffers,
};
ghost use Rattle.format.specs.FileAnswer.{validated};
ghost use Rattle.format.specs.EncodeAnswer.{lent, encoded, encoded_buffer};
ghost use Rattle.header.specs.Part.{BeginsAt};
ghost use Rattle.ora.specs.Answers.{span_of};

use format::{BlockOutcome, EncodeOutcome, FileOutcome};
use header::faults::header_fault;
use header::sections;
use header::table::Table;

// ---- Reading

// Judges the block at the input's start, with 1 to 21 and 40: its length and counts, or the
// refusal.
pub fn validate_block(bases: u64, reference: &[u8], input: &[u8]) -> BlockOutcome
    ensures { outcome_of_block result
        ≡ validated_block bases reference.now input.now }
{
    blocks::validate_block(bases, reference, input)
}

// Decodes the block at the input's start, with 1 to 22 and 40: the letters of its reads one after
// the other and the end of each, counted in letters; its names one after the other and the end of
// each, counted in bytes, where flag 0x8 says that they are stored. What lies past them stays; a
// refusal changes nothing.
pub fn decode(
    bases: u64,
    reference: &[u8],
    input: &[u8],
    letters: &mut [u8],
    ends: &mut [u32],
    names: &mut [u8],
    name_ends: &mut [u32],
) -> BlockOutcome
    ensures { (outcome_of_block result
        ≡ decoded bases reference.now input.now
        (buffers_of letters.old ends.old names.old
        name_ends.old))
        × (buffers_of letters.new ends.new names.new
        name_ends.new
        ≡ decoded_buffers bases reference.now input.now
        (buffers_of letters.old ends.old names.old
        name_ends.old)) }
{
    blocks::decode(bases, reference, input, letters, ends, names, name_ends)
}

// Judges a file block by block, with 1 to 21 and 40: the number of its blocks and the sums of their
// counts modulo 2 ^ 64, or the first refusal with the block's index. It is this answer that demand
// 3 speaks of.
pub fn validate(bases: u64, reference: &[u8], file: &[u8]) -> FileOutcome
    ensures { (outcome_of_file result
        ≡ validated bases reference.now file.now)
        × (accepts_file result
        ≡ eqb (validated bases reference.now file.now).number 0) }
{
    files::validate(bases, reference, file)
}

// ---- Writing

// Writes the block that the fixed rule makes of these reads and names to the start of `out`, with
// 1, 30 to 34 and 41: its length in bytes, or the refusal. Letters, names and the ends of both are
// as decode gives them; the other four are proposals, one element a read. What lies past the block
// stays; a refusal changes nothing.
pub fn encode(
    bases: u64,
    reference: &[u8],
    letters: &[u8],
    ends: &[u32],
    names: &[u8],
    name_ends: &[u32],
    positions: &[u32],
    strands: &[u8],
    lefts: &[u8],
    rights: &[u8],
    b_id: u64,
    c_time: u64,
    out: &mut [u8],
) -> EncodeOutcome
    ensures { (outcome_of_encode result
        ≡ encoded bases reference.now
        (lent letters.now ends.now names.now
        name_ends.now positions.now strands.now
        lefts.now rights.now b_id c_time)
        out.old)
        × (out.new
        ≡ encoded_buffer bases reference.now
        (lent letters.now ends.now names.now
        name_ends.now positions.now strands.now
        lefts.now rights.now b_id c_time)
        out.old) }
{
    encoder::encode(
        bases, reference, letters, ends, names, name_ends, positions, strands, lefts, rights, b_id,
        c_time, out,
    )
}

// ---- Looking into a block

// Where a section stands in the block, in bytes.
#[derive(Clone, Copy)]
pub struct Span {
    pub offset: u64,
    pub size: u64,
}

// The section that is asked for; empty if the number is above 8 or the header earns one of 2 to 8.
// It is the very part of the block that section_span says, no copy (specs/Part.antt of header).
pub fn section(input: &[u8], number: u64) -> &[u8]
    ensures { (result.now ≡ section_answer input.now number)
        × BeginsAt input.entry result (span_answer input.now number).offset }
{
    sections::section(input, number)
}

// Where that section stands; both 0 where it is empty.
pub fn section_span(input: &[u8], number: u64) -> Span
    ensures { span_of result ≡ span_answer input.now number }
{
    let span = sections::section_span(input, number);
    Span {
        offset: span.offset as u64,
        size: span.size as u64,
    }
}

// The block's length by its header, with which a file is cut into blocks before they are judged; 0
// if the header earns one of 2 to 8.
pub fn block_length(input: &[u8]) -> u64
    ensures { result ≡ length_answer input.now }
{
    let refused = header_fault(input).is_err();
    if !refused {
        return Table { input }.block_length() as u64;
    }
    0
}

// The block's b_id; 0 if the header earns one of 2 to 8.
pub fn block_id(input: &[u8]) -> u64
    ensures { result ≡ id_answer input.now }
{
    if header_fault(input).is_err() {
        return 0;
    }
    Table { input }.b_id()
}

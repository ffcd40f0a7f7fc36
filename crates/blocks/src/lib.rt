// Reading a block (01, Numbers of refusal: smallest step first): judged with 1 to 21 and 40, and
// decoded into lent buffers, which 22 is decided for before the first byte is written. The
// contracts of the public calls cite specs/BlockAnswer.antt of format; neither has a `requires`.
#![tactic(auto)]

ghost use Rattle.std.specs.Prelude.{◌≡◌, true, false, ◌||◌, length, ltb};
ghost use mathlib.Core.List.{flatten, map};
ghost use Rattle.base.specs.Answer.{found};
ghost use Rattle.base.specs.Lists.{places_from};
ghost use Rattle.base.specs.Paste.{pasted};
ghost use Rattle.dna.specs.Reference.{ReferenceFits};
ghost use Rattle.dna.specs.Refused.{numbered_block};
ghost use Rattle.format.specs.Header.{header_of, read_count};
ghost use Rattle.format.specs.Lengths.{n_section_wrong};
ghost use Rattle.format.specs.WellFormed.{BlockDivision};
ghost use Rattle.format.specs.Answered.{outcome_of_block};
ghost use Rattle.format.specs.BlockAnswer.{
  header_refused,
  lengths_answer,
  dna_answer,
  validated_block,
  buffers_of,
  decoded,
  decoded_buffers,
};
ghost use Rattle.lengths.specs.Given.{lengths_found, lengths_number};
ghost use Rattle.reads.specs.Walked.{walk_answer, TablesMade, Writable, WalkDone};
ghost use Rattle.blocks.specs.Judged.{BlockReady, block_walk, judged};
ghost use Rattle.blocks.specs.Named.{names_judged, names_found, name_count, NamesFit};
ghost use Rattle.blocks.specs.Decoding.{Decodable, ReadsWritten};

use dna::Counts;
use dna::refusals::{BlockRefusal, Refusal};
use format::{BlockOutcome, BlockSummary};
use header::faults::header_fault;
use header::sections::{DNA_SECTION, N_SECTION, NAMES_SECTION, SIZE_SECTION, section};
use header::table::Table;
use lengths::blocks::lengths_fault;
use names::put_names;
use reads::{Walked, first_read, walk};
use record_letters::letters::pair_table;
use reference::{reference_size_wrong, word_table};

// Judges the block at the input's start.
pub fn validate_block(bases: u64, reference: &[u8], input: &[u8]) -> BlockOutcome
    ensures { outcome_of_block result
        ≡ validated_block bases reference.now input.now }
{
    let block = judge(bases, reference, input, true)?;
    let Some(_) = judge_names(input) else {
        return Err(Refusal::NamesInvalid.into());
    };
    Ok(block)
}

// Decodes the block at the input's start: the letters of its reads one after the other and the end
// of each, counted in letters; its names one after the other and the end of each, counted in bytes.
// All buffers are as they were where it is refused.
pub fn decode(
    bases: u64,
    reference: &[u8],
    input: &[u8],
    letters: &mut [u8],
    ends: &mut [u32],
    names: &mut [u8],
    name_ends: &mut [u32],
) -> BlockOutcome
    ensures { (outcome_of_block result
        ≡ decoded bases reference.now input.now
        (buffers_of letters.old ends.old names.old
        name_ends.old))
        × (buffers_of letters.new ends.new names.new
        name_ends.new
        ≡ decoded_buffers bases reference.now input.now
        (buffers_of letters.old ends.old names.old
        name_ends.old)) }
{
    let block = judge(bases, reference, input, false)?;
    let Some(size) = judge_names(input) else {
        return Err(Refusal::NamesInvalid.into());
    };
    if room_too_small(letters.len(), ends.len(), block.counts) {
        return Err(Refusal::CapacityTooSmall.into());
    }
    if names_room_too_small(names.len(), name_ends.len(), size, name_count(input)) {
        return Err(Refusal::CapacityTooSmall.into());
    }
    write_names(input, size, names, name_ends);
    Ok(write_reads(bases, reference, input, block.bytes, letters, ends))
}

// 22: the letters or the ends do not fit.
fn room_too_small(letters: usize, ends: usize, counts: Counts) -> bool
    ensures { result ≡ ltb letters counts.letters || ltb ends counts.reads }
{
    (letters as u64) < counts.letters || (ends as u64) < counts.reads
}

// 22: the names or their ends do not fit.
fn names_room_too_small(names: usize, ends: usize, size: u64, count: usize) -> bool
    ensures { result ≡ ltb names size || ltb ends count }
{
    (names as u64) < size || ends < count
}

// Judges the names of a block whose header is accepted; without flag 0x8 they stay unread.
fn judge_names(input: &[u8]) -> Option<u64>
    requires { header_refused input.now ≡ false }
    ensures { result ≡ names_judged input.now }
{
    let table = Table { input };
    if table.names_stored() {
        return names::judge(section(input, NAMES_SECTION), table.read_count() as usize);
    }
    Some(0)
}

// How many names it has.
fn name_count(input: &[u8]) -> usize
    requires { header_refused input.now ≡ false }
    ensures { result ≡ name_count input.now }
{
    let table = Table { input };
    if table.names_stored() {
        return table.read_count() as usize;
    }
    0
}

// Writes the names of a block, judged and of so many bytes, into buffers with room for them.
fn write_names(input: &[u8], size: u64, names: &mut [u8], ends: &mut [u32])
    requires { NamesFit input.now size (length names.old) (length ends.old) }
    ensures { (names.new
        ≡ pasted names.old 0 (flatten (names_found input.now)))
        × (ends.new ≡ pasted ends.old 0
        (places_from 0 (map length (names_found input.now)))) }
{
    let table = Table { input };
    if table.names_stored() {
        put_names(
            section(input, NAMES_SECTION),
            table.read_count() as usize,
            names,
            ends,
        );
    }
}

// Writes the reads of a block that was judged, of so many bytes, into buffers with room for them.
fn write_reads(
    bases: u64,
    reference: &[u8],
    input: &[u8],
    bytes: u64,
    letters: &mut [u8],
    ends: &mut [u32],
) -> BlockSummary
    requires { Decodable bases reference.now input.now bytes (length letters.old)
        (length ends.old) }
    ensures { (divided : BlockDivision)
        → dna_answer bases reference.now input.now ≡ found divided bytes
        → ReadsWritten bases reference.now bytes divided result letters.old
        letters.new ends.old ends.new }
{
    let forward = word_table(true);
    let reverse = word_table(false);
    let pairs = pair_table();
    let walked = walk_block(
        bases, reference, input, true, true, &forward, &reverse, &pairs, letters, ends,
    );
    BlockSummary {
        bytes,
        counts: walked.unwrap().counts,
    }
}

// Judges a block with 1 to 21; its differences are counted where `count` is set.
fn judge(bases: u64, reference: &[u8], input: &[u8], count: bool) -> BlockOutcome
    ensures { numbered_block result ≡ judged count bases reference.now input.now }
{
    if reference_size_wrong(bases, reference) {
        return Err(Refusal::ReferenceSizeWrong.into());
    }
    header_fault(input)?;
    lengths_fault(input)?;
    judge_reads(bases, reference, input, count)
}

// Judges the N section and the reads of a block that earns none of 1 to 10.
fn judge_reads(bases: u64, reference: &[u8], input: &[u8], count: bool) -> BlockOutcome
    requires { (ReferenceFits bases reference.now) × (header_refused input.now ≡ false)
        × (lengths_number (header_of input.now).l_dna_raw
        (lengths_found (lengths_answer input.now)) ≡ 0) }
    ensures { numbered_block result ≡ judged count bases reference.now input.now }
{
    if n_section_wrong(input) {
        return Err(Refusal::NSectionWrong.into());
    }
    let walked = walk_unwritten(bases, reference, input, count)?;
    let table = Table { input };
    if walked.cursor.at < table.section_length(DNA_SECTION as usize) {
        return Err(Refusal::DnaTrailing.into());
    }
    Ok(BlockSummary {
        bytes: table.block_length() as u64,
        counts: walked.counts,
    })
}

// 11 by length: the N section has not a bit for each read.
fn n_section_wrong(input: &[u8]) -> bool
    requires { header_refused input.now ≡ false }
    ensures { result ≡ n_section_wrong input.now }
{
    let table = Table { input };
    table.section_length(N_SECTION as usize) != (table.read_count() as usize + 7) / 8
}

// Walks all reads of a block and writes nothing.
fn walk_unwritten(
    bases: u64,
    reference: &[u8],
    input: &[u8],
    count: bool,
) -> Result<Walked, BlockRefusal>
    requires { BlockReady bases reference.now input.now }
    ensures { numbered_block result ≡ walk_answer count reference.now
        (block_walk bases input.now) }
{
    let words = [0u64; 256];
    let pairs = [0u16; 256];
    let mut letters = [0u8; 1];
    let mut ends = [0u32; 1];
    walk_block(
        bases,
        reference,
        input,
        count,
        false,
        &words,
        &words,
        &pairs,
        &mut letters,
        &mut ends,
    )
}

// Walks all reads of a block.
fn walk_block(
    bases: u64,
    reference: &[u8],
    input: &[u8],
    count: bool,
    write: bool,
    forward_table: &[u64; 256],
    reverse_table: &[u64; 256],
    pair_table: &[u16; 256],
    letters: &mut [u8],
    ends: &mut [u32],
) -> Result<Walked, BlockRefusal>
    requires block_ready { BlockReady bases reference.now input.now }
    requires tables_made { write ≡ true
        → TablesMade forward_table.now reverse_table.now pair_table.now
        × Writable (block_walk bases input.now) (read_count (header_of input.now))
        (length letters.old) (length ends.old) }
    ensures { WalkDone (block_walk bases input.now) write count
        reference.now result letters.old letters.new
        ends.old ends.new }
{
    let dna = section(input, DNA_SECTION);
    let sizes = section(input, SIZE_SECTION);
    let ns = section(input, N_SECTION);
    let table = Table { input };
    let reads = table.read_count() as usize;
    walk(
        reference,
        dna,
        sizes,
        ns,
        reads,
        bases,
        first_read(table.same_length(), table.l_read()),
        reads,
        count,
        write,
        forward_table,
        reverse_table,
        pair_table,
        letters,
        ends,
    )
}

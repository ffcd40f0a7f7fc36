// Writing a block by the fixed rule (01, The writer's fixed rule; 02, Ticket 1): the faults of what
// is lent, then the lengths of the sections, then their bytes. The contract of the public call
// cites specs/EncodeAnswer.antt of format; it has no `requires`.
#![tactic(auto)]

ghost use Rattle.std.specs.Prelude.{◌≡◌, false, ◌≤◌, length};
ghost use Rattle.base.specs.Lists.{steps_from};
ghost use Rattle.tokens.specs.WrittenNames.{names_refused};
ghost use Rattle.format.specs.Answered.{outcome_of_encode};
ghost use Rattle.format.specs.HeaderFaults.{max_reads};
ghost use Rattle.format.specs.Demands.{LentFits};
ghost use Rattle.format.specs.EncodeAnswer.{lent, encoded, encoded_buffer};
ghost use Rattle.format.specs.RuleBlock.{all_equal, written_sizes};
ghost use Rattle.encoder.specs.Blocks.{block_input};

use dna::refusals::Refusal;
use dna_writer::lent::LentReads;
use dna_writer::{dna_length, put_dna};
use faults::lent_fault;
use format::EncodeOutcome;
use header::table::TABLE_LENGTH;
use layout::BlockLengths;
use lengths::write::{all_equal, sizes_length};
use names_writer::{MAX_NAME, measure, names_refused, put_section};
use reference::WordTables;

// The faults 1 and 30 to 33.
pub mod faults;

// The lengths, the header and the size section.
mod layout;

// Writes the block of the reads and names to the start of `out`, with 1, 30 to 34 and 41: its
// length, or the refusal. What lies past the block stays; a refusal changes nothing. The parameters
// are those of the C interface.
pub fn encode(
    bases: u64,
    reference: &[u8],
    letters: &[u8],
    ends: &[u32],
    names: &[u8],
    name_ends: &[u32],
    positions: &[u32],
    strands: &[u8],
    lefts: &[u8],
    rights: &[u8],
    b_id: u64,
    c_time: u64,
    out: &mut [u8],
) -> EncodeOutcome
    ensures { (outcome_of_encode result
        ≡ encoded bases reference.now
        (lent letters.now ends.now names.now
        name_ends.now positions.now strands.now
        lefts.now rights.now b_id c_time)
        out.old)
        × (out.new
        ≡ encoded_buffer bases reference.now
        (lent letters.now ends.now names.now
        name_ends.now positions.now strands.now
        lefts.now rights.now b_id c_time)
        out.old) }
{
    lent_fault(
        bases, reference, letters, ends, positions, strands, lefts, rights,
    )?;
    if names_refused(names, name_ends, ends.len()) {
        return Err(Refusal::LentNamesInvalid);
    }
    let tables = WordTables::new();
    let reads = LentReads {
        bases: bases,
        reference: reference,
        tables: &tables,
        letters: letters,
        ends: ends,
        positions: positions,
        strands: strands,
        lefts: lefts,
        rights: rights,
    };
    encode_lent(&reads, names, name_ends, b_id, c_time, out)
}

// The same for reads that earn none of 1 and 30 to 33, and names that do not earn 41.
fn encode_lent(
    reads: &LentReads,
    names: &[u8],
    name_ends: &[u32],
    b_id: u64,
    c_time: u64,
    out: &mut [u8],
) -> EncodeOutcome
    requires named { names_refused (length reads.now.ends.now) names.now name_ends.now ≡ false }
    requires typed { LentFits (block_input reads.now names.now name_ends.now 0 0) }
    ensures { (outcome_of_encode result
        ≡ encoded reads.now.bases reads.now.reference.now
        (block_input reads.now names.now name_ends.now b_id c_time)
        out.old)
        × (out.new
        ≡ encoded_buffer reads.now.bases reads.now.reference.now
        (block_input reads.now names.now name_ends.now b_id c_time)
        out.old) }
{
    let dna = dna_length(reads);
    let mut kinds = [0u8; MAX_NAME];
    let mut columns = [0usize; MAX_NAME];
    let named = measure(names, name_ends, &mut kinds, &mut columns);
    let equal = all_equal(reads.ends);
    let sizes = size_section_length(reads.ends, equal);
    let lengths = BlockLengths {
        ends: reads.ends,
        equal: equal,
        letters: reads.letters.len(),
        dna: dna,
        named: named,
        sizes: sizes,
    };
    let ns = lengths.n_start();
    let end = ns + reads.ends.len().div_ceil(8);
    if out.len() < end {
        return Err(Refusal::BlockCapacityTooSmall);
    }
    lengths.put_front(b_id, c_time, out);
    put_section(names, name_ends, &kinds, &columns, out, TABLE_LENGTH + dna);
    put_dna(reads, out, TABLE_LENGTH, ns);
    Ok(end as u64)
}

// How many bytes the size section takes; none where all lengths are equal.
fn size_section_length(ends: &[u32], equal: bool) -> usize
    requires { (length ends.now ≤ max_reads)
        × (equal ≡ all_equal (steps_from 0 ends.now)) }
    ensures { result ≡ length (written_sizes (steps_from 0 ends.now)) }
{
    if equal {
        return 0;
    }
    sizes_length(ends)
}

// Which record the fixed rule makes of a read (01, The writer's fixed rule): more than 31 N, raw4;
// the candidate's place where it is used; else raw. The contract cites specs/Choice.antt.
#![tactic(auto)]

ghost use Rattle.std.specs.Prelude.{◌≡◌, false, ◌+◌, ◌-◌, ◌≤◌, ◌<◌, length};
ghost use Rattle.dna.specs.Record.{max_entries};
ghost use Rattle.dna.specs.Reference.{reference_size_wrong};
ghost use Rattle.format.specs.RuleRecord.{candidate_entries};
ghost use Rattle.letter_packing.specs.Read.{ReadFits, codes_of};
ghost use Rattle.reference.specs.Stretch.{StretchFits};
ghost use Rattle.mismatches.specs.Entries.{EntriesPut};
ghost use Rattle.choices.specs.Choice.{rule_candidate, ChosenByRule};

pub mod candidate;

use candidate::Candidate;
use dna::Record;
use mismatches::compare::Aligned;
use mismatches::put_entries;
use n_lists::count_n;
use reference::WordTables;

// The most positions that an N list may have.
const MAX_N_POSITIONS: usize = 31;

// A record, how many entries it has, and how many letters of its read are N. The bytes of the
// entries are the first of the list that was lent for them, since there is no heap.
#[derive(Clone, Copy)]
pub struct Chosen {
    pub record: Record,
    pub entries: usize,
    pub n_count: usize,
}

// The record of a read; its entries are written to the start of the list.
pub fn choose(
    bases: u64,
    reference: &[u8],
    read: &[u8],
    candidate: Candidate,
    tables: &WordTables,
    list: &mut [u8],
) -> Chosen
    requires { (reference_size_wrong bases reference.now ≡ false)
        × (ReadFits read.now)
        × (max_entries ≤ length list.old) }
    ensures { ChosenByRule bases reference.now read.now (rule_candidate candidate) list.new
        result }
{
    let count = count_n(read);
    if MAX_N_POSITIONS < count {
        return Chosen {
            record: Record::Raw4,
            entries: 0,
            n_count: count,
        };
    }
    let raw = Chosen {
        record: Record::Raw,
        entries: 0,
        n_count: count,
    };
    let Some(strand) = candidate.strand_used(bases, read.len()) else {
        return raw;
    };
    let Some(entries) = put_place(reference, read, candidate, tables, list) else {
        return raw;
    };
    Chosen {
        record: candidate.record(read.len(), strand, entries),
        entries: entries,
        n_count: count,
    }
}

// Writes the entries of the read at the place to the start of the list, and gives their number;
// None where there are more than 31.
fn put_place(
    reference: &[u8],
    read: &[u8],
    candidate: Candidate,
    tables: &WordTables,
    list: &mut [u8],
) -> Option<usize>
    requires { (ReadFits read.now)
        × (candidate.left + candidate.right < length read.now)
        × (StretchFits reference.now candidate.position
        (length read.now - (candidate.left + candidate.right)))
        × (max_entries ≤ length list.old) }
    ensures { EntriesPut list.old list.new 0
        (candidate_entries reference.now (codes_of read.now) (rule_candidate candidate)) result }
{
    let end = read.len() - usize::from(candidate.right);
    let forward = candidate.strand == 1;
    let aligned = Aligned {
        letters: &read[usize::from(candidate.left)..end],
        reference: reference,
        forward: forward,
        leftmost: candidate.position as usize,
        table: tables.of(forward),
    };
    put_entries(&aligned, list)
}

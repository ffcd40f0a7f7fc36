// The DNA and N sections of a block by the fixed rule (01, The writer's fixed rule): their length,
// and their bytes group by group. The contracts cite specs/Section.antt, of the reads that are lent
// (lent.rt, specs/Reads.antt); each `requires` says that there is room.
#![tactic(auto)]

ghost use Rattle.std.specs.Prelude.{◌≡◌, ◌+◌, ◌^◌, ◌≤◌, length};
ghost use mathlib.Core.List.{flat_map};
ghost use Rattle.base.specs.Paste.{pasted};
ghost use Rattle.dna.specs.Record.{max_entries};
ghost use Rattle.dna_writer.specs.Section.{bytes_of, dna_bytes, n_bytes};
ghost use Rattle.dna_writer.specs.Reads.{records_lent};

use group::{choose_read, position_after, put_group};
use lent::LentReads;
use record_writer::record_length;

// What is lent.
pub mod lent;

// One group of reads.
mod group;

// How many bytes the DNA section takes.
pub fn dna_length(reads: &LentReads) -> usize
    ensures { result ≡ length (dna_bytes (records_lent reads.now)) }
{
    let mut list = [0u8; 32];
    let records = records_length(reads, &mut list);
    reads.ends.len().div_ceil(8) * 4 + records
}

// How many bytes the records of all reads take. The list is room for the entries of a read.
fn records_length(reads: &LentReads, list: &mut [u8]) -> usize
    requires { max_entries ≤ length list.old }
    ensures { (result ≡ length (flat_map bytes_of (records_lent reads.now)))
        × (result ≤ 2 ^ 40) }
{
    let mut sum: usize = 0;
    let mut previous: u64 = 0;
    for i in 0..reads.ends.len() {
        let chosen = choose_read(reads, i, list);
        sum += record_length(
            chosen.record,
            previous,
            chosen.entries,
            reads.read(i),
            chosen.n_count,
        );
        previous = position_after(chosen.record, previous);
    }
    sum
}

// Writes the DNA section from `at` on, and the N section from `n_at` on.
pub fn put_dna(reads: &LentReads, out: &mut [u8], at: usize, n_at: usize)
    requires { (at + length (dna_bytes (records_lent reads.now)) ≤ n_at)
        × (n_at + length (n_bytes (records_lent reads.now)) ≤ length out.old) }
    ensures { out.new
        ≡ pasted (pasted out.old at (dna_bytes (records_lent reads.now))) n_at
        (n_bytes (records_lent reads.now)) }
{
    let mut list = [0u8; 32];
    put_groups(reads, &mut list, out, at, n_at);
}

// Writes both sections group by group. The list is room for the entries of a read.
fn put_groups(reads: &LentReads, list: &mut [u8], out: &mut [u8], at: usize, n_at: usize)
    requires { (max_entries ≤ length list.old)
        × (at + length (dna_bytes (records_lent reads.now)) ≤ n_at)
        × (n_at + length (n_bytes (records_lent reads.now)) ≤ length out.old) }
    ensures { out.new
        ≡ pasted (pasted out.old at (dna_bytes (records_lent reads.now))) n_at
        (n_bytes (records_lent reads.now)) }
{
    let mut place = at;
    let mut previous: u64 = 0;
    for group in 0..reads.ends.len().div_ceil(8) {
        let after = put_group(reads, 8 * group, previous, list, out, place);
        out[n_at + group] = out[place + 2];
        place = after.place;
        previous = after.previous;
    }
}

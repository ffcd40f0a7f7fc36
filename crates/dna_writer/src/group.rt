// One group of reads (01, Records): its records, then its four bytes before them. The contracts
// cite specs/Writer.antt and specs/Reads.antt; each `requires` says that there is room.
ghost use Rattle.std.specs.Prelude.{◌≡◌, Bool, cond, List, ℕ, ◌+◌, ◌*◌, ◌≤◌, ◌<◌, length, drop};
ghost use Rattle.base.specs.Paste.{pasted};
ghost use Rattle.dna.specs.Record.{max_entries, Entry};
ghost use Rattle.format.specs.RuleRecord.{n_offsets_of, step_fits};
ghost use Rattle.record_writer.specs.Written.{is_forward, position_for, record_written};
ghost use Rattle.choices.specs.Choice.{ChosenByRule};
ghost use Rattle.dna_writer.specs.Section.{bytes_of, candidate_at};
ghost use Rattle.dna_writer.specs.Reads.{
  input_of,
  read_of,
  record_at,
  records_after,
  group_at,
};
ghost use Rattle.dna_writer.specs.Writer.{flag_bits, writer_after};

use crate::lent::LentReads;
use choices::{Chosen, choose};
use dna::{Placement, Record, Strand};
use integers::put_u32;
use record_writer::position::step_fits;
use record_writer::put_record;

// Where the writing of a group stands.
#[derive(Clone, Copy)]
pub struct GroupWriter {
    // The byte after what is written.
    pub place: usize,
    // The position that the next read's step adds to.
    pub previous: u64,
    // The bits of the reads that are written, the last read lowest, in a byte each: Perfect,
    // Forward, with-N, pos_t.
    pub flags: u64,
}

// Writes the group of the reads from `first` on, of which the nearest before that has a position
// has `previous`. The list is room for the entries of a read.
pub fn put_group(
    reads: &LentReads,
    first: usize,
    previous: u64,
    list: &mut [u8],
    out: &mut [u8],
    at: usize,
) -> GroupWriter
    requires { (first < length reads.now.ends.now)
        × (max_entries ≤ length list.old)
        × (at + length (group_at reads.now previous first) ≤ length out.old) }
    ensures { (out.new ≡ pasted out.old at (group_at reads.now previous first))
        × (result.place ≡ at + length (group_at reads.now previous first))
        × (drop 8 (records_after reads.now previous first)
        ≡ records_after reads.now result.previous (first + 8)) }
{
    let size = (reads.ends.len() - first).min(8);
    let mut writer = GroupWriter {
        place: at + 4,
        previous: previous,
        flags: 0,
    };
    for k in 0..size {
        writer = put_read(reads, first + k, list, out, writer);
    }
    put_u32(out, at, (writer.flags << (8 - size)) as u32);
    writer
}

// Writes the record of read i, and adds its bits to the writer's.
fn put_read(
    reads: &LentReads,
    i: usize,
    list: &mut [u8],
    out: &mut [u8],
    writer: GroupWriter,
) -> GroupWriter
    requires { (i < length reads.now.ends.now)
        × (max_entries ≤ length list.old)
        × (writer.place + length (bytes_of (record_at reads.now writer.previous i))
        ≤ length out.old)
        × (writer.flags ≤ 0x7f7f7f7f) }
    ensures { (out.new ≡ pasted out.old writer.place
        (bytes_of (record_at reads.now writer.previous i)))
        × (result ≡ writer_after writer (record_at reads.now writer.previous i)) }
{
    let chosen = choose_read(reads, i, list);
    let previous = writer.previous;
    let place = put_record(
        chosen.record,
        previous,
        &list[..chosen.entries],
        reads.read(i),
        chosen.n_count,
        out,
        writer.place,
    );
    GroupWriter {
        place: place,
        previous: position_after(chosen.record, previous),
        flags: writer.flags * 2 + read_bits(chosen.record, previous, chosen.n_count),
    }
}

// The record of read i; its entries are written to the start of the list.
pub fn choose_read(reads: &LentReads, i: usize, list: &mut [u8]) -> Chosen
    requires { (i < length reads.now.ends.now) × (max_entries ≤ length list.old) }
    ensures { ChosenByRule reads.now.bases reads.now.reference.now (read_of reads.now i)
        (candidate_at (input_of reads.now) i) list.new result }
{
    choose(
        reads.bases,
        reads.reference,
        reads.read(i),
        reads.candidate(i),
        reads.tables,
        list,
    )
}

// The position that the next read's step adds to, after a record.
pub fn position_after(record: Record, previous: u64) -> u64
    ensures { result ≡ position_for previous «record» }
{
    match record {
        Record::Perfect(placement) => placement.position,
        Record::Global(placement) => placement.position,
        Record::Local(placement) => placement.position,
        Record::Raw => previous,
        Record::Raw4 => previous,
    }
}

// ---- Bits

// The four bits of a read, of which `count` letters are N.
fn read_bits(record: Record, previous: u64, count: usize) -> u64
    ensures { ((bases : ℕ) (entries : List Entry) (codes : List ℕ)
        → count ≡ length (n_offsets_of codes)
        → result ≡ flag_bits (record_written bases previous «record» entries codes).context)
        × (result ≤ 0x01010101) }
{
    let with_n = 65536 * u64::from(0 < count);
    match record {
        Record::Perfect(placement) => 1 + aligned_bits(placement, previous) + with_n,
        Record::Global(placement) => aligned_bits(placement, previous) + with_n,
        Record::Local(placement) => aligned_bits(placement, previous) + with_n,
        Record::Raw => with_n,
        Record::Raw4 => with_n,
    }
}

// The bits Forward and pos_t of an aligned read.
fn aligned_bits(placement: Placement, previous: u64) -> u64
    ensures { (result ≡ 256 * cond (is_forward placement.strand) 1 0
        + 16777216 * cond (step_fits previous placement.position) 1 0)
        × (result ≤ 0x01000100) }
{
    let forward = is_forward(placement.strand);
    let step = step_fits(previous, placement.position);
    256 * u64::from(forward) + 16777216 * u64::from(step)
}

fn is_forward(strand: Strand) -> bool
    ensures { result ≡ is_forward strand }
{
    matches!(strand, Strand::Forward)
}

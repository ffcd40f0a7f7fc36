// One record of the DNA section, written (01, Records): its length and its bytes, by its kind and
// placement, the position before, its entry bytes and the letters of its read. position.rt and
// kinds.rt write the parts. The contracts cite specs/Written.antt; each `requires` says that the
// record can be written (specs/Writable.antt), and that there is room.
#![tactic(auto, unfolding(base::specs::Packed::packed_length))]

ghost use Rattle.std.specs.Prelude.{◌≡◌, List, ℕ, ◌+◌, ◌^◌, ◌≤◌, length};
ghost use Rattle.base.specs.Paste.{pasted};
ghost use Rattle.dna.specs.Record.{max_entries, Entry};
ghost use Rattle.dna.specs.Sizes.{max_read_length};
ghost use Rattle.letter_packing.specs.Read.{codes_of};
ghost use Rattle.record_writer.specs.Parts.{entries_of};
ghost use Rattle.record_writer.specs.Written.{fields_written, written_bytes};
ghost use Rattle.record_writer.specs.Writable.{list_stored, KindFits, Writable};

use dna::Record;
use kinds::{GLOBAL_BIT, put_aligned, put_local, put_raw, put_raw4};
use n_lists::{n_list_length, put_n_list};
use packing::packed_length;
use position::{position_length, put_position};

// The position, as a step or by itself.
pub mod position;

// The kinds of records, up to the N list.
mod kinds;

// How many bytes a record with so many entries takes; `count` letters of its read are N.
pub fn record_length(
    record: Record,
    previous: u64,
    entries: usize,
    read: &[u8],
    count: usize,
) -> usize
    requires { Writable «record» entries read.now count }
    ensures { ((written : List Entry) → length written ≡ entries
        → result ≡ length (written_bytes previous «record» written
        (codes_of read.now))) × (result ≤ 2 ^ 24) }
{
    let fields = fields_length(record, previous, entries, read.len());
    if list_stored(record, count) {
        return fields + n_list_length(read, count);
    }
    fields
}

// Writes a record; the answer is the place after it. Each byte of `entries` is one of its entries.
pub fn put_record(
    record: Record,
    previous: u64,
    entries: &[u8],
    read: &[u8],
    count: usize,
    out: &mut [u8],
    at: usize,
) -> usize
    requires writable { Writable «record» (length entries.now) read.now count }
    requires read_in_bounds { at + length (written_bytes previous «record» (entries_of entries.now)
        (codes_of read.now)) ≤ length out.old }
    ensures { (out.new ≡ pasted out.old at
        (written_bytes previous «record» (entries_of entries.now)
        (codes_of read.now)))
        × (result ≡ at + length (written_bytes previous «record»
        (entries_of entries.now) (codes_of read.now))) }
{
    let next = put_fields(record, previous, entries, read, count, out, at);
    if list_stored(record, count) {
        return put_n_list(read, count, out, next);
    }
    next
}

// Whether an N list follows, where `count` letters are N.
fn list_stored(record: Record, count: usize) -> bool
    ensures { result ≡ list_stored «record» count }
{
    match record {
        Record::Raw4 => false,
        _ => 0 < count,
    }
}

// ---- The fields

// How many bytes a record with so many entries takes up to its N list; its read has `size` letters.
fn fields_length(record: Record, previous: u64, entries: usize, size: usize) -> usize
    requires { (KindFits «record» size) × (entries ≤ max_entries) × (size ≤ max_read_length) }
    ensures { ((written : List Entry) (codes : List ℕ) → length written ≡ entries
        → length codes ≡ size
        → result ≡ length (fields_written previous «record» written codes)) × (result ≤ 2 ^ 20) }
{
    match record {
        Record::Perfect(placement) => position_length(previous, placement.position),
        Record::Global(placement) => { 1 + position_length(previous, placement.position) + entries }
        Record::Local(placement) => {
            let ends = usize::from(placement.left) + usize::from(placement.right);
            3 + position_length(previous, placement.position) + entries + packed_length::<2>(ends)
        }
        Record::Raw => 1 + packed_length::<2>(size),
        Record::Raw4 => 1 + packed_length::<4>(size),
    }
}

// Writes the bytes of a record up to its N list; the answer is the place after them.
fn put_fields(
    record: Record,
    previous: u64,
    entries: &[u8],
    read: &[u8],
    count: usize,
    out: &mut [u8],
    at: usize,
) -> usize
    requires writable { Writable «record» (length entries.now) read.now count }
    requires read_in_bounds { at + length (fields_written previous «record» (entries_of entries.now)
        (codes_of read.now)) ≤ length out.old }
    ensures { (out.new ≡ pasted out.old at
        (fields_written previous «record» (entries_of entries.now)
        (codes_of read.now)))
        × (result ≡ at + length (fields_written previous «record»
        (entries_of entries.now) (codes_of read.now))) }
{
    match record {
        Record::Perfect(placement) => put_position(previous, placement.position, out, at),
        Record::Global(placement) => put_aligned(
            GLOBAL_BIT,
            previous,
            placement.position,
            entries,
            out,
            at,
        ),
        Record::Local(placement) => put_local(placement, previous, entries, read, out, at),
        Record::Raw => put_raw(read, out, at),
        Record::Raw4 => put_raw4(read, out, at),
    }
}

// What a walk does with a read: it counts it, and writes its letters and its end where it is told
// to. Differences are counted while the letters are written; else only where they are asked for.
ghost use Rattle.std.specs.Prelude.{◌≡◌, true, cond, ◌||◌, [], ◌∷◌, ◌+◌, length};
ghost use Rattle.base.specs.Paste.{pasted};
ghost use Rattle.dna.specs.Counts.{top_of};
ghost use Rattle.record_letters.specs.Printed.{Printable};
ghost use Rattle.reads.specs.Walked.{
  TablesMade,
  RoomAt,
  letters_in,
  counts_as,
  counts_in,
};

use crate::Read;
use dna::{Counts, MAX_ENTRIES};
use record_letters::counts::differences;
use record_letters::letters::put_read;

// Counts a read; where `write` is set, its letters from letter `from` on, and its end at `index`.
pub fn visit_read(
    reference: &[u8],
    dna: &[u8],
    read: Read,
    count: bool,
    write: bool,
    forward_table: &[u64; 256],
    reverse_table: &[u64; 256],
    pair_table: &[u16; 256],
    letters: &mut [u8],
    from: usize,
    ends: &mut [u32],
    index: usize,
) -> Counts
    requires printable { Printable dna.now reference.now read.length read.«record»
        read.layout }
    requires tables_made { write ≡ true
        → TablesMade forward_table.now reverse_table.now pair_table.now
        × RoomAt (length letters.old) (length ends.old) from index read.length }
    ensures { (result
        ≡ counts_in (write || count) reference.now dna.now read)
        × (letters.new
        ≡ cond write (pasted letters.old from
        (letters_in reference.now dna.now read)) letters.old)
        × (ends.new
        ≡ cond write (pasted ends.old index ((from + read.length) ∷ []))
        ends.old) }
{
    if write {
        return write_read(
            reference,
            dna,
            read,
            forward_table,
            reverse_table,
            pair_table,
            letters,
            from,
            ends,
            index,
        );
    }
    count_read(reference, dna, read, count)
}

// Writes a read, and counts it.
fn write_read(
    reference: &[u8],
    dna: &[u8],
    read: Read,
    forward_table: &[u64; 256],
    reverse_table: &[u64; 256],
    pair_table: &[u16; 256],
    letters: &mut [u8],
    from: usize,
    ends: &mut [u32],
    index: usize,
) -> Counts
    requires { (Printable dna.now reference.now read.length read.«record»
        read.layout)
        × (TablesMade forward_table.now reverse_table.now pair_table.now)
        × (RoomAt (length letters.old) (length ends.old) from index read.length) }
    ensures { (result ≡ counts_in true reference.now dna.now read)
        × (letters.new
        ≡ pasted letters.old from
        (letters_in reference.now dna.now read))
        × (ends.new
        ≡ pasted ends.old index ((from + read.length) ∷ [])) }
{
    let record = read.record;
    let layout = read.layout;
    let size = read.length;
    let changed = put_read(
        dna,
        reference,
        record,
        layout,
        size,
        forward_table,
        reverse_table,
        pair_table,
        letters,
        from,
    );
    ends[index] = (from + size) as u32;
    counts_of(read, changed)
}

// Counts a read; its differences where `count` is set.
fn count_read(reference: &[u8], dna: &[u8], read: Read, count: bool) -> Counts
    requires { Printable dna.now reference.now read.length read.«record»
        read.layout }
    ensures { result ≡ counts_in count reference.now dna.now read }
{
    if count {
        let record = read.record;
        let layout = read.layout;
        return counts_of(
            read,
            differences(dna, reference, record, layout, read.length),
        );
    }
    counts_of(read, 0)
}

// The counts of a read with so many differences.
fn counts_of(read: Read, differences: u64) -> Counts
    ensures { result ≡ counts_as read differences }
{
    let layout = read.layout;
    Counts {
        reads: 1,
        letters: read.length as u64,
        entries: layout.entry_count as u64,
        differences: differences,
        top: top_of(layout.entry_count as u64),
    }
}

// 1 where a record has exactly 31 entries, the most that it can have, else 0 (02, Ticket 4).
fn top_of(entries: u64) -> u64
    ensures { result ≡ top_of entries }
{
    u64::from(entries == MAX_ENTRIES as u64)
}

// The reads of a block, one after the other (01, Numbers of refusal: DNA group by group): a cursor,
// one step and the walk of so many steps. Only `walk` steps; whoever wants one read asks it for
// one. The contracts cite specs/Cursor.antt and specs/Walked.antt; what later walks rest on is
// proofs/ReadLaws.antt.
#![tactic(auto)]

ghost use Rattle.std.specs.Prelude.{◌≡◌, true, ◌+◌, ◌≤◌, ◌<◌, length};
ghost use Rattle.base.specs.Numbers.{non_negative};
ghost use Rattle.dna.specs.Reference.{ReferenceFits};
ghost use Rattle.dna.specs.Counts.{plus};
ghost use Rattle.dna.specs.Refused.{numbered_block};
ghost use Rattle.format.specs.Answered.{counted_of};
ghost use Rattle.reads.specs.Cursor.{
  source_of,
  SourceFits,
  CursorFits,
  first_read,
  position_in,
  read_step,
  step_answer,
  read_steps,
};
ghost use Rattle.reads.specs.Walked.{
  counts_of,
  no_read,
  TablesMade,
  Writable,
  WalkDone,
  CountsAdd,
};

use crate::groups::{bits_of, take_group};
use crate::visit::visit_read;
use dna::refusals::{BlockRefusal, Refusal};
use dna::{Counts, Record};
use lengths::{SizeCursor, first_cursor, next_length};
use records::context::Context;
use records::{Layout, decode_record};

pub mod groups;
pub mod visit;

// Where a walk over the reads stands. The order of the fields leaves no padding.
#[derive(Clone, Copy)]
pub struct ReadCursor {
    // The next byte of the DNA section.
    pub at: usize,
    // The position before; 0 before the first read that has one.
    pub position: u64,
    // Where the walk over the lengths stands.
    pub sizes: SizeCursor,
    // The index of the next read.
    pub read: u32,
    // The four bytes of its group as one number, Perfect lowest, then Forward, with-N, pos_t; those
    // of the group before where a new one begins.
    pub group: u32,
}

// A read: how many letters it has, its record, and where the lists of that stand.
#[derive(Clone, Copy)]
pub struct Read {
    pub length: usize,
    pub record: Record,
    pub layout: Layout,
}

// A read, and the cursor after it.
#[derive(Clone, Copy)]
pub struct ReadStep {
    pub read: Read,
    pub cursor: ReadCursor,
}

// So many reads from a cursor on: the cursor after them, the last of them, and their counts.
#[derive(Clone, Copy)]
pub struct Walked {
    pub cursor: ReadCursor,
    pub last: Read,
    pub counts: Counts,
}

// The cursor at the first read. With flag 0x1, `fixed`, each length is l_read, here `each`.
pub fn first_read(fixed: bool, each: i32) -> ReadCursor
    ensures { result ≡ first_read fixed (non_negative each) }
{
    ReadCursor {
        at: 0,
        position: 0,
        sizes: first_cursor(fixed, each),
        read: 0,
        group: 0,
    }
}

// Walks `steps` reads from a cursor on: counts them, their differences only where `count` is set or
// they are written; where `write` is set, writes their letters and ends from the start of the lent
// buffers on. The tables matter only then.
pub fn walk(
    reference: &[u8],
    dna: &[u8],
    sizes: &[u8],
    ns: &[u8],
    reads: usize,
    bases: u64,
    start: ReadCursor,
    steps: usize,
    count: bool,
    write: bool,
    forward_table: &[u64; 256],
    reverse_table: &[u64; 256],
    pair_table: &[u16; 256],
    letters: &mut [u8],
    ends: &mut [u32],
) -> Result<Walked, BlockRefusal>
    requires source_fits { (SourceFits (source_of dna.now sizes.now ns.now reads bases))
        × (ReferenceFits bases reference.now)
        × (CursorFits dna.now start)
        × (start.read + steps ≤ reads) }
    requires tables_made { write ≡ true
        → TablesMade forward_table.now reverse_table.now pair_table.now
        × Writable
        (read_steps steps (source_of dna.now sizes.now ns.now reads bases) start) steps
        (length letters.old) (length ends.old) }
    ensures { WalkDone (read_steps steps
        (source_of dna.now sizes.now ns.now reads bases) start)
        write count reference.now result letters.old letters.new
        ends.old ends.new }
{
    let mut cursor = start;
    let mut last = no_read();
    let mut counts = Counts::default();
    for i in 0..steps {
        let step = next_read(dna, sizes, ns, reads, bases, cursor)?;
        let from = counts.letters as usize;
        let visited = visit_read(
            reference,
            dna,
            step.read,
            count,
            write,
            forward_table,
            reverse_table,
            pair_table,
            letters,
            from,
            ends,
            i,
        );
        counts = counts_added(counts, visited);
        last = step.read;
        cursor = step.cursor;
    }
    Ok(Walked {
        cursor,
        last,
        counts,
    })
}

// The next read, and the cursor after it. Its only caller is `walk`, so that it is inlined there.
fn next_read(
    dna: &[u8],
    sizes: &[u8],
    ns: &[u8],
    reads: usize,
    bases: u64,
    cursor: ReadCursor,
) -> Result<ReadStep, BlockRefusal>
    requires { (SourceFits (source_of dna.now sizes.now ns.now reads bases))
        × (CursorFits dna.now cursor) × (cursor.read < reads) }
    ensures { numbered_block result ≡ step_answer (read_step
        (source_of dna.now sizes.now ns.now reads bases)
        cursor) }
{
    let size_cursor = cursor.sizes;
    let Some((length, sizes_after)) = next_length(sizes, size_cursor) else {
        return Err(Refusal::LengthsInvalid.into());
    };
    let size = length as usize;
    let read = u64::from(cursor.read);
    let group = match take_group(dna, ns, reads, cursor.read, cursor.at, cursor.group) {
        Ok(group) => group,
        Err(refusal) => return Err(BlockRefusal { refusal, read }),
    };
    let bits = bits_of(group.group, cursor.read);
    let context = Context {
        bits,
        size,
        previous: cursor.position,
        bases,
    };
    let decoded = match decode_record(dna, group.at, context) {
        Ok(decoded) => decoded,
        Err(refusal) => return Err(BlockRefusal { refusal, read }),
    };
    Ok(ReadStep {
        read: Read {
            length: size,
            record: decoded.record,
            layout: decoded.layout,
        },
        cursor: ReadCursor {
            at: decoded.layout.end,
            position: position_after(decoded.record, cursor.position),
            sizes: sizes_after,
            read: cursor.read + 1,
            group: group.group,
        },
    })
}

// The position after a record: its own, or the one before where it has none.
fn position_after(record: Record, previous: u64) -> u64
    ensures { result ≡ position_in «record» previous }
{
    match record {
        Record::Perfect(placement) => placement.position,
        Record::Global(placement) => placement.position,
        Record::Local(placement) => placement.position,
        Record::Raw => previous,
        Record::Raw4 => previous,
    }
}

// What a walk of no steps answers as its last read.
fn no_read() -> Read
    ensures { result ≡ no_read }
{
    Read {
        length: 0,
        record: Record::Raw,
        layout: Layout {
            entries: 0,
            entry_count: 0,
            packed: 0,
            n_list: 0,
            n_count: 0,
            end: 0,
        },
    }
}

// Counts added field by field.
fn counts_added(a: Counts, b: Counts) -> Counts
    requires { CountsAdd a b }
    ensures { result ≡ counts_of (plus (counted_of a) (counted_of b)) }
{
    Counts {
        reads: a.reads + b.reads,
        letters: a.letters + b.letters,
        entries: a.entries + b.entries,
        differences: a.differences + b.differences,
        top: a.top + b.top,
    }
}

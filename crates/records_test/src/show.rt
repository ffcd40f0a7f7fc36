// One case: a record is decoded and printed as a line.
ghost use Rattle.std.specs.Prelude.{◌≤◌};
ghost use Rattle.record_letters.specs.Printed.{Printable};

use crate::lines::{end_line, put_number, put_word, start_line};
use dna::refusals::Refusal;
use dna::{Placement, Record, Strand};
use record_letters::counts::differences;
use record_letters::letters::{pair_table, put_read};
use records::context::Context;
use records::{Bits, Layout, decode_record};
use reference::word_table;
use std::io;

// No read of a case is longer.
const READ_CAPACITY: usize = 16;

// The line of a case: its name, then the record at the start of the section, or the number of its
// fault. The position before is 0.
pub fn show(
    rt: &impl Print,
    name: &[u8],
    section: &[u8],
    bits: Bits,
    size: usize,
) -> io::Result<()> {
    show_at(rt, name, section, 0, bits, size, 0)
}

// The same of a record at a place, after a position. No line where the place lies past the section
// or the read is too long.
pub fn show_at(
    rt: &impl Print,
    name: &[u8],
    section: &[u8],
    at: usize,
    bits: Bits,
    size: usize,
    previous: u32,
) -> io::Result<()> {
    if READ_CAPACITY < size || section.len() < at {
        return Ok(());
    }
    start_line(rt, name)?;
    start_line(rt, b":")?;
    let reference = [0x1bu8, 0x1b, 0xe4];
    let previous = u64::from(previous);
    let bases = 12;
    let context = Context {
        bits,
        size,
        previous,
        bases,
    };
    match decode_record(section, at, context) {
        Ok(decoded) => put_found(
            rt,
            section,
            &reference,
            decoded.record,
            decoded.layout,
            size,
        )?,
        Err(refusal) => put_refused(rt, refusal)?,
    }
    end_line(rt)
}

fn put_refused(rt: &impl Print, refusal: Refusal) -> io::Result<()> {
    put_word(rt, b"refused")?;
    put_number(rt, u64::from(refusal.number()))
}

// Kind and place, where the record ends, its counts, its letters, and how many of them its entries
// changed.
fn put_found(
    rt: &impl Print,
    section: &[u8],
    reference: &[u8],
    record: Record,
    layout: Layout,
    size: usize,
) -> io::Result<()>
    requires { (Printable section.now reference.now size «record» layout) × (size ≤ 16) }
{
    put_kind(rt, record)?;
    put_word(rt, b"end")?;
    put_number(rt, layout.end as u64)?;
    put_word(rt, b"entries")?;
    put_number(rt, layout.entry_count as u64)?;
    put_word(rt, b"differences")?;
    put_number(rt, differences(section, reference, record, layout, size))?;
    let mut letters = [0u8; READ_CAPACITY];
    let changed = put_read(
        section,
        reference,
        record,
        layout,
        size,
        &word_table(true),
        &word_table(false),
        &pair_table(),
        &mut letters,
        0,
    );
    put_word(rt, &letters[..size])?;
    put_word(rt, b"changed")?;
    put_number(rt, changed)
}

fn put_kind(rt: &impl Print, record: Record) -> io::Result<()> {
    match record {
        Record::Perfect(placement) => put_placed(rt, b"perfect", placement),
        Record::Global(placement) => put_placed(rt, b"global", placement),
        Record::Local(placement) => put_placed(rt, b"local", placement),
        Record::Raw => put_word(rt, b"raw"),
        Record::Raw4 => put_word(rt, b"raw4"),
    }
}

// A kind, its position, its strand, and the letters clipped at each end.
fn put_placed(rt: &impl Print, kind: &[u8], placement: Placement) -> io::Result<()> {
    put_word(rt, kind)?;
    put_number(rt, placement.position)?;
    put_strand(rt, placement.strand)?;
    put_word(rt, b"clips")?;
    put_number(rt, u64::from(placement.left))?;
    put_number(rt, u64::from(placement.right))
}

fn put_strand(rt: &impl Print, strand: Strand) -> io::Result<()> {
    match strand {
        Strand::Forward => put_word(rt, b"forward"),
        Strand::Reverse => put_word(rt, b"reverse"),
    }
}

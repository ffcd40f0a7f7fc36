// One record of the DNA section (01, Records): decoded with its faults 12 to 20. The contracts cite
// specs/Decoded.antt, which stands on specs/RecordAt.antt of dna. Every `requires` says what a walk
// over the section has: the place lies inside. What is known of the read keeps its own bounds.
#![tactic(auto)]

ghost use Rattle.std.specs.Prelude.{◌≡◌, true, false, ◌||◌, ◌+◌, ◌*◌, ◌≤◌, ◌<◌, ◌^◌, length, get_or};
ghost use Rattle.base.specs.Packed.{packed_length};
ghost use Rattle.base.specs.Answer.{first_number};
ghost use Rattle.dna.specs.Refused.{number_of, numbered};
ghost use Rattle.dna.specs.Sizes.{max_read_length};
ghost use Rattle.records.specs.Decoded.{
  context_of,
  strand_of,
  decoded_at,
  with_list,
  local_outside,
  local_faults,
};

use crate::context::Context;
use crate::fields::{PositionRead, entries_fit, holds_n, read_position};
use crate::nlist::{NList, read_n_list};
use dna::refusals::Refusal;
use dna::{Placement, Record, Strand};
use packing::{packed_length, padding_is_zero};

pub mod context;
pub mod fields;
pub mod nlist;

// A read's bit of each of the four group bytes; `step` is pos_t.
#[derive(Clone, Copy)]
pub struct Bits {
    pub perfect: bool,
    pub forward: bool,
    pub with_n: bool,
    pub step: bool,
}

// Where a record's lists stand in the section, and where it ends.
#[derive(Clone, Copy)]
pub struct Layout {
    pub entries: usize,
    pub entry_count: usize,
    pub packed: usize,
    pub n_list: usize,
    pub n_count: usize,
    pub end: usize,
}

// The record at a place, and where its lists stand.
#[derive(Clone, Copy)]
pub struct Decoded {
    pub record: Record,
    pub layout: Layout,
}

// Decodes the record at `at` of a read.
pub fn decode_record(section: &[u8], at: usize, context: Context) -> Result<Decoded, Refusal>
    requires { at ≤ length section.now }
    ensures { numbered result ≡ decoded_at (context_of context) section.now at }
{
    if context.bits.perfect {
        return decode_perfect(section, at, context);
    }
    if section.len() <= at {
        return Err(Refusal::DnaTruncated);
    }
    let flag = section[at];
    let kind = flag % 8;
    let count = usize::from(flag / 8);
    match kind {
        4 => decode_global(section, at, count, context),
        0 => decode_local(section, at, count, context),
        2 => decode_raw(section, at, count, context),
        1 => decode_raw4(section, at, count, context),
        _ => Err(Refusal::RecordFlagInvalid),
    }
}

// A perfect record: a position.
fn decode_perfect(section: &[u8], at: usize, context: Context) -> Result<Decoded, Refusal>
    requires at_in_bounds { at ≤ length section.now }
    requires perfect_value { context.bits.perfect ≡ true }
    ensures { numbered result ≡ decoded_at (context_of context) section.now at }
{
    let start = read_position(section, at, context.bits.step, context.previous)?;
    if context.bases < start.position + context.size as u64 {
        return Err(Refusal::SpanOutsideReference);
    }
    let placement = placement_of(start.position, context.bits.forward, 0, 0);
    let list = read_n_list(section, start.next, context.bits.with_n, context.size);
    with_list(Record::Perfect(placement), start.next, 0, start.next, list)
}

// A global record: a position and 1 to 31 entries.
fn decode_global(
    section: &[u8],
    at: usize,
    count: usize,
    context: Context,
) -> Result<Decoded, Refusal>
    requires at_in_bounds { at < length section.now }
    requires perfect_value { (context.bits.perfect ≡ false) × (get_or section.now at 0 ≡ count * 8 + 4) }
    ensures { numbered result ≡ decoded_at (context_of context) section.now at }
{
    if count == 0 {
        return Err(Refusal::RecordFlagInvalid);
    }
    let start = read_position(section, at + 1, context.bits.step, context.previous)?;
    if section.len() - start.next < count {
        return Err(Refusal::DnaTruncated);
    }
    if context.bases < start.position + context.size as u64 {
        return Err(Refusal::SpanOutsideReference);
    }
    if !entries_fit(section, start.next, count, context.size) {
        return Err(Refusal::EntryOffsetInvalid);
    }
    let next = start.next + count;
    let placement = placement_of(start.position, context.bits.forward, 0, 0);
    let list = read_n_list(section, next, context.bits.with_n, context.size);
    with_list(Record::Global(placement), start.next, count, next, list)
}

// A local record: a position, entries, left and right, and the letters of the ends.
fn decode_local(
    section: &[u8],
    at: usize,
    count: usize,
    context: Context,
) -> Result<Decoded, Refusal>
    requires at_in_bounds { at < length section.now }
    requires perfect_value { (context.bits.perfect ≡ false) × (get_or section.now at 0 ≡ count * 8) }
    ensures { numbered result ≡ decoded_at (context_of context) section.now at }
{
    let start = read_position(section, at + 1, context.bits.step, context.previous)?;
    if section.len() - start.next < count + 2 {
        return Err(Refusal::DnaTruncated);
    }
    let left = section[start.next + count];
    let right = section[start.next + count + 1];
    let clipped = usize::from(left) + usize::from(right);
    let packed = start.next + count + 2;
    let bytes = packed_length::<2>(clipped);
    if section.len() - packed < bytes {
        return Err(Refusal::DnaTruncated);
    }
    local_fault(section, start, count, clipped, context)?;
    let next = packed + bytes;
    let placement = placement_of(start.position, context.bits.forward, left, right);
    let list = read_n_list(section, next, context.bits.with_n, context.size);
    with_list(Record::Local(placement), start.next, count, packed, list)
}

// A raw record: letters of 2 bits.
fn decode_raw(section: &[u8], at: usize, count: usize, context: Context) -> Result<Decoded, Refusal>
    requires at_in_bounds { at < length section.now }
    requires perfect_value { (context.bits.perfect ≡ false) × (get_or section.now at 0 ≡ count * 8 + 2) }
    ensures { numbered result ≡ decoded_at (context_of context) section.now at }
{
    if count != 0 {
        return Err(Refusal::RecordFlagInvalid);
    }
    let start = at + 1;
    let bytes = packed_length::<2>(context.size);
    if section.len() - start < bytes {
        return Err(Refusal::DnaTruncated);
    }
    if raw_bit_stray(context.bits) {
        return Err(Refusal::FlagBitStray);
    }
    if !padding_is_zero::<2>(section, start, context.size) {
        return Err(Refusal::PaddingNonzero);
    }
    let next = start + bytes;
    let list = read_n_list(section, next, context.bits.with_n, context.size);
    with_list(Record::Raw, start, 0, start, list)
}

// A raw4 record: letters of 4 bits, and no N list.
fn decode_raw4(
    section: &[u8],
    at: usize,
    count: usize,
    context: Context,
) -> Result<Decoded, Refusal>
    requires at_in_bounds { at < length section.now }
    requires perfect_value { (context.bits.perfect ≡ false) × (get_or section.now at 0 ≡ count * 8 + 1) }
    ensures { numbered result ≡ decoded_at (context_of context) section.now at }
{
    if count != 0 {
        return Err(Refusal::RecordFlagInvalid);
    }
    let start = at + 1;
    let bytes = packed_length::<4>(context.size);
    if section.len() - start < bytes {
        return Err(Refusal::DnaTruncated);
    }
    if raw_bit_stray(context.bits) {
        return Err(Refusal::FlagBitStray);
    }
    let Some(has_n) = holds_n(section, start, context.size) else {
        return Err(Refusal::BaseCodeInvalid);
    };
    if !padding_is_zero::<4>(section, start, context.size) {
        return Err(Refusal::PaddingNonzero);
    }
    if has_n != context.bits.with_n {
        return Err(Refusal::NPositionsInvalid);
    }
    let end = start + bytes;
    let list = NList {
        first: end,
        count: 0,
        end,
    };
    with_list(Record::Raw4, start, 0, start, Ok(list))
}

// The first of 16, 15, 17 and 19 that fits a local record whose bytes are there.
fn local_fault(
    section: &[u8],
    start: PositionRead,
    count: usize,
    clipped: usize,
    context: Context,
) -> Result<(), Refusal>
    requires { (start.next + count + 2 + packed_length 4 clipped ≤ length section.now)
        × (count < 32) × (start.position < 2 ^ 33) }
    ensures { number_of result ≡ first_number (local_faults section.now start.next count clipped
        context.size context.bits.forward start.position context.bases) }
{
    if clipped == 0 || context.size <= clipped {
        return Err(Refusal::ClipsInvalid);
    }
    let aligned = context.size - clipped;
    if local_outside(context.bits.forward, start.position, aligned, context.bases) {
        return Err(Refusal::SpanOutsideReference);
    }
    if !entries_fit(section, start.next, count, aligned) {
        return Err(Refusal::EntryOffsetInvalid);
    }
    if !padding_is_zero::<2>(section, start.next + count + 2, clipped) {
        return Err(Refusal::PaddingNonzero);
    }
    Ok(())
}

// Whether the stretch of a local record is not inside the reference: it runs up from the position,
// and on the reverse strand down from it (02, Ticket 2).
fn local_outside(forward: bool, position: u64, aligned: usize, bases: u64) -> bool
    requires { (aligned ≤ max_read_length) × (position < 2 ^ 33) }
    ensures { result ≡ local_outside forward position aligned bases }
{
    if forward {
        return bases < position + aligned as u64;
    }
    bases <= position || position + 1 < aligned as u64
}

// What a record whose fields are right is with the answer of its N list.
fn with_list(
    record: Record,
    entries: usize,
    count: usize,
    packed: usize,
    list: Result<NList, Refusal>,
) -> Result<Decoded, Refusal>
    ensures { numbered result ≡ with_list «record» entries count packed (numbered list) }
{
    let list = list?;
    Ok(Decoded {
        record,
        layout: Layout {
            entries,
            entry_count: count,
            packed,
            n_list: list.first,
            n_count: list.count,
            end: list.end,
        },
    })
}

// A place on the reference.
fn placement_of(position: u64, forward: bool, left: u8, right: u8) -> Placement
    ensures { result ≡ record {
      position = position;
      strand = strand_of forward;
      left = left;
      right = right;
    } }
{
    Placement {
        position,
        strand: strand_of(forward),
        left,
        right,
    }
}

// The strand of a Forward bit.
fn strand_of(forward: bool) -> Strand
    ensures { result ≡ strand_of forward }
{
    if forward {
        return Strand::Forward;
    }
    Strand::Reverse
}

// A stray bit of a raw kind: its Forward and pos_t bits are 0.
fn raw_bit_stray(bits: Bits) -> bool
    ensures { result ≡ bits.forward || bits.step }
{
    bits.forward || bits.step
}

// The letters of a decoded record, into a lent buffer: the stretch and the packed letters, then N,
// then each entry where no N stands (specs/Printed.antt). Entries and N list are walked in the
// section. The tables are made once and lent to each call.
ghost use Rattle.std.specs.Prelude.{◌≡◌, true, false, cond, map, ◌+◌, ◌-◌, ◌*◌, ◌/◌, ◌%◌, ◌≤◌, ◌<◌, length};
ghost use Rattle.base.specs.Lists.{places_from, Below};
ghost use Rattle.base.specs.Packed.{packed_length, symbols_at};
ghost use Rattle.base.specs.Paste.{pasted};
ghost use Rattle.dna.specs.Sizes.{max_read_length};
ghost use Rattle.dna.specs.Reference.{max_reference_bases, letter_of_code, stretch_letters};
ghost use Rattle.dna.specs.Alignment.{n_positions};
ghost use Rattle.dna.specs.RecordFaults.{any_outside};
ghost use Rattle.dna.specs.RecordAt.{entries_at, offsets_at};
ghost use Rattle.dna.specs.Letters.{record_letters};
ghost use Rattle.dna.specs.Counts.{record_counts};
ghost use Rattle.reference.specs.Stretch.{StretchFits};
ghost use Rattle.reference.specs.Tables.{word_table};
ghost use Rattle.record_letters.specs.Laid.{
  is_forward,
  is_found,
  offsets_of,
  fields_in,
  stored_in,
  context_in,
  local_leftmost,
  LocalExact,
};
ghost use Rattle.record_letters.specs.Printed.{
  pair_word,
  pair_words,
  Printable,
  left_in,
  local_letters,
  plain_letters,
  marked,
  entered,
  overlaid,
  changes_at,
  changes,
};

use crate::counts::{is_forward, local_leftmost};
use crate::tables::Tables;
use dna::{Placement, Record, Strand};
use integers::put_u16;
use records::Layout;
use records::nlist::read_n_place;
use reference::{letter_of_code, put_stretch, put_stretch_forward};
use std::array;

// Writes the letters of a record of a read of `size` letters from index `at` on, and gives its
// differences.
pub fn put_read(
    section: &[u8],
    reference: &[u8],
    record: Record,
    layout: Layout,
    size: usize,
    forward_table: &[u64; 256],
    reverse_table: &[u64; 256],
    pair_table: &[u16; 256],
    out: &mut [u8],
    at: usize,
) -> u64
    requires { (Printable section.now reference.now size «record» layout)
        × (at + size ≤ length out.old)
        × (forward_table.now ≡ word_table true)
        × (reverse_table.now ≡ word_table false)
        × (pair_table.now ≡ pair_words) }
    ensures { (out.new
        ≡ pasted out.old at
        (record_letters reference.now (context_in 0 size «record»)
        (stored_in section.now size «record» layout)))
        × (result ≡ (record_counts reference.now (context_in 0 size «record»)
        (stored_in section.now size «record» layout)).differences) }
{
    let tables = Tables {
        forward: forward_table,
        reverse: reverse_table,
        pairs: pair_table,
    };
    put_plain(section, reference, record, layout, size, tables, out, at);
    put_n_list(section, layout.n_list, layout.n_count, size, out, at);
    put_entries(
        section,
        layout.entries,
        layout.entry_count,
        out,
        at + left_of(record),
    )
}

// Writes the letters of a record where neither N nor entry stands.
fn put_plain(
    section: &[u8],
    reference: &[u8],
    record: Record,
    layout: Layout,
    size: usize,
    tables: Tables,
    out: &mut [u8],
    at: usize,
)
    requires { (Printable section.now reference.now size «record» layout)
        × (at + size ≤ length out.old) }
    ensures { out.new
        ≡ pasted out.old at
        (plain_letters reference.now (context_in 0 size «record»)
        (fields_in section.now size «record» layout)) }
{
    match record {
        Record::Perfect(placement) => {
            let leftmost = placement.position as usize;
            put_aligned(reference, placement.strand, leftmost, size, tables, out, at)
        }
        Record::Global(placement) => {
            let leftmost = placement.position as usize;
            put_aligned(reference, placement.strand, leftmost, size, tables, out, at)
        }
        Record::Local(placement) => put_local(
            section,
            reference,
            placement,
            layout.packed,
            size,
            tables,
            out,
            at,
        ),
        Record::Raw => put_packed(section, layout.packed, 0, size, tables, out, at),
        Record::Raw4 => put_codes4(section, layout.packed, size, tables, out, at),
    }
}

// Writes the letters of a local record: the clipped ones, and between them the aligned part.
fn put_local(
    section: &[u8],
    reference: &[u8],
    placement: Placement,
    packed: usize,
    size: usize,
    tables: Tables,
    out: &mut [u8],
    at: usize,
)
    requires { (placement.left + placement.right ≤ size)
        × (LocalExact placement (size - (placement.left + placement.right)))
        × (StretchFits reference.now
        (local_leftmost placement (size - (placement.left + placement.right)))
        (size - (placement.left + placement.right)))
        × (packed + packed_length 4 (placement.left + placement.right) ≤ length section.now)
        × (at + size ≤ length out.old) }
    ensures { out.new
        ≡ pasted out.old at
        (local_letters section.now reference.now placement packed size) }
{
    let left = usize::from(placement.left);
    let right = usize::from(placement.right);
    let aligned = size - (left + right);
    let leftmost = local_leftmost(placement, aligned);
    put_packed(section, packed, 0, left, tables, out, at);
    put_aligned(
        reference,
        placement.strand,
        leftmost,
        aligned,
        tables,
        out,
        at + left,
    );
    put_packed(
        section,
        packed,
        left,
        right,
        tables,
        out,
        at + left + aligned,
    );
}

// Writes the letters of the `aligned` bases of the reference from index `leftmost` on.
fn put_aligned(
    reference: &[u8],
    strand: Strand,
    leftmost: usize,
    aligned: usize,
    tables: Tables,
    out: &mut [u8],
    at: usize,
)
    requires { (StretchFits reference.now leftmost aligned) × (at + aligned ≤ length out.old) }
    ensures { out.new
        ≡ pasted out.old at
        (stretch_letters reference.now (is_forward strand) leftmost aligned) }
{
    let forward = is_forward(strand);
    put_stretch(
        reference,
        forward,
        leftmost,
        aligned,
        tables.forward,
        tables.reverse,
        out,
        at,
    );
}

// Writes the letters of `count` codes of two bits, from code `first` on of those that stand at
// `packed`: they are packed as the reference is.
fn put_packed(
    section: &[u8],
    packed: usize,
    first: usize,
    count: usize,
    tables: Tables,
    out: &mut [u8],
    at: usize,
)
    requires { (packed + packed_length 4 (first + count) ≤ length section.now)
        × (first + count ≤ max_reference_bases)
        × (at + count ≤ length out.old) }
    ensures { out.new
        ≡ pasted out.old at
        (map letter_of_code (symbols_at 4 4 section.now packed first count)) }
{
    put_stretch_forward(&section[packed..], first, count, tables.forward, out, at);
}

// Writes the letters of so many codes of four bits that stand at `packed`, two a byte.
fn put_codes4(section: &[u8], packed: usize, size: usize, tables: Tables, out: &mut [u8], at: usize)
    requires { (packed + packed_length 2 size ≤ length section.now)
        × (size ≤ max_read_length)
        × (Below 5 (symbols_at 16 2 section.now packed 0 size))
        × (at + size ≤ length out.old) }
    ensures { out.new
        ≡ pasted out.old at
        (map letter_of_code (symbols_at 16 2 section.now packed 0 size)) }
{
    let whole = size / 2;
    put_pairs(section, packed, whole, tables, out, at);
    if size % 2 != 0 {
        out[at + 2 * whole] = letter_of_code(section[packed + whole] / 16);
    }
}

// Writes the letters of so many whole bytes of two codes.
fn put_pairs(section: &[u8], packed: usize, bytes: usize, tables: Tables, out: &mut [u8], at: usize)
    requires { (packed + bytes ≤ length section.now)
        × (at + 2 * bytes ≤ length out.old) }
    ensures { out.new
        ≡ pasted out.old at
        (map letter_of_code (symbols_at 16 2 section.now packed 0 (2 * bytes))) }
{
    for k in 0..bytes {
        put_u16(
            out,
            at + 2 * k,
            tables.pairs[usize::from(section[packed + k])],
        );
    }
}

// The table of pairs, which the caller makes once and lends to each call.
pub fn pair_table() -> [u16; 256]
    ensures { result ≡ pair_words }
{
    array::from_fn(|byte| pair_word(byte as u8))
}

// The letters of both codes of a byte.
fn pair_word(byte: u8) -> u16
    ensures { result ≡ pair_word byte }
{
    u16::from_le_bytes([letter_or_0(byte / 16), letter_or_0(byte % 16)])
}

// The letter of a code; 0 above 4.
fn letter_or_0(code: u8) -> u8
    ensures { result ≡ letter_of_code code }
{
    if 4 < code {
        return 0;
    }
    letter_of_code(code)
}

// Writes N at the `count` places of the N list whose words begin at `first`.
fn put_n_list(section: &[u8], first: usize, count: usize, size: usize, out: &mut [u8], at: usize)
    requires { (first ≤ length section.now) × (size ≤ max_read_length)
        × (is_found (offsets_at count size 0 0 section.now first) ≡ true)
        × (at + size ≤ length out.old) }
    ensures { out.new
        ≡ marked out.old at
        (n_positions (offsets_of (offsets_at count size 0 0 section.now first))) }
{
    let mut next = first;
    let mut place: usize = 0;
    for _ in 0..count {
        let Ok(there) = read_n_place(section, next, place, size) else {
            return;
        };
        out[at + there.place] = 78;
        place = there.place;
        next = there.next;
    }
}

// Writes the letter of each of `count` entries where no N stands, and gives how many letters that
// changes.
fn put_entries(section: &[u8], entries: usize, count: usize, out: &mut [u8], at: usize) -> u64
    requires { (entries + count ≤ length section.now)
        × (count < 32)
        × (at ≤ length out.old)
        × (any_outside (length out.old)
        (places_from at (map (λ entry. entry.offset) (entries_at section.now entries count)))
        ≡ false) }
    ensures { (out.new
        ≡ overlaid out.old at (entries_at section.now entries count))
        × (result ≡ changes out.old at
        (entries_at section.now entries count)) }
{
    let mut changed: u64 = 0;
    let mut place = at;
    for k in 0..count {
        let entry = section[entries + k];
        place += usize::from(entry / 4);
        changed += put_entry(entry % 4, out, place);
    }
    changed
}

// Writes the letter of an entry's code where no N stands: 1 where that changes the letter, else 0.
fn put_entry(code: u8, out: &mut [u8], place: usize) -> u64
    requires { (code < 4) × (place < length out.old) }
    ensures { (out.new ≡ entered out.old place code)
        × (result ≡ cond (changes_at out.old place code) 1 0) }
{
    let old = out[place];
    if old == 78 {
        return 0;
    }
    let letter = letter_of_code(code);
    out[place] = letter;
    if old == letter {
        return 0;
    }
    1
}

// The letters clipped before the aligned part.
#[tactic(auto, unfolding(crate::specs::Printed::left_in))]
fn left_of(record: Record) -> usize
    ensures { result ≡ left_in «record» }
{
    match record {
        Record::Local(placement) => usize::from(placement.left),
        Record::Perfect(_) | Record::Global(_) | Record::Raw | Record::Raw4 => 0,
    }
}

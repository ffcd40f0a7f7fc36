// The bytes of each kind of record up to its N list (01, Records). The contracts cite
// specs/Parts.antt; a perfect record is its position alone.
ghost use Rattle.std.specs.Prelude.{◌≡◌, ◌+◌, ◌-◌, ◌^◌, ◌≤◌, ◌<◌, length};
ghost use Rattle.base.specs.Paste.{pasted};
ghost use Rattle.dna.specs.Record.{max_entries};
ghost use Rattle.letter_packing.specs.Read.{ReadFits, codes_of};
ghost use Rattle.record_writer.specs.Parts.{
  position_bytes,
  aligned_bytes,
  local_bytes,
  raw_bytes,
  raw4_bytes,
};
ghost use Rattle.record_writer.specs.Writable.{PlacementFits};

use super::position::put_position;
use dna::Placement;
use letter_packing::{put_ends, put_pairs};

// The bits of a flag byte that name a kind; a local record has none.
pub const GLOBAL_BIT: u8 = 4;

const RAW_BIT: u8 = 2;

const RAW4_BIT: u8 = 1;

// Writes a flag byte with the bit of a kind, the position and the entries.
pub fn put_aligned(
    bit: u8,
    previous: u64,
    position: u64,
    entries: &[u8],
    out: &mut [u8],
    at: usize,
) -> usize
    requires bit_bound { (bit < 8) × (position < 2 ^ 32) × (length entries.now ≤ max_entries) }
    requires entries_in_bounds { at + 1 + length (position_bytes previous position)
        + length entries.now ≤ length out.old }
    ensures { (out.new ≡ pasted out.old at
        (aligned_bytes bit previous position entries.now))
        × (result ≡ at + 1 + length (position_bytes previous position) + length entries.now) }
{
    out[at] = (entries.len() as u8) * 8 + bit;
    let next = put_position(previous, position, out, at + 1);
    put_entries(entries, out, next)
}

// Writes the bytes of entries.
fn put_entries(entries: &[u8], out: &mut [u8], at: usize) -> usize
    requires { at + length entries.now ≤ length out.old }
    ensures { (out.new ≡ pasted out.old at entries.now) × (result ≡ at + length entries.now) }
{
    let end = at + entries.len();
    out[at..end].copy_from_slice(entries);
    end
}

// Writes a local record: after the entries the ends, their lengths and their letters.
pub fn put_local(
    placement: Placement,
    previous: u64,
    entries: &[u8],
    read: &[u8],
    out: &mut [u8],
    at: usize,
) -> usize
    requires placement_fits { (PlacementFits placement (length read.now)) × (length entries.now ≤ max_entries)
        × (ReadFits read.now) }
    requires read_in_bounds { at + length (local_bytes placement previous entries.now
        (codes_of read.now)) ≤ length out.old }
    ensures { (out.new ≡ pasted out.old at
        (local_bytes placement previous entries.now
        (codes_of read.now)))
        × (result ≡ at + length (local_bytes placement previous entries.now
        (codes_of read.now))) }
{
    let next = put_aligned(0, previous, placement.position, entries, out, at);
    out[next] = placement.left;
    out[next + 1] = placement.right;
    let left = usize::from(placement.left);
    let right = usize::from(placement.right);
    put_ends(read, left, right, out, next + 2)
}

// Writes a raw record: its flag byte, and all letters at 2 bits.
pub fn put_raw(read: &[u8], out: &mut [u8], at: usize) -> usize
    requires read_fits { ReadFits read.now }
    requires read_in_bounds { at + length (raw_bytes (codes_of read.now)) ≤ length out.old }
    ensures { (out.new
        ≡ pasted out.old at (raw_bytes (codes_of read.now)))
        × (result ≡ at + length (raw_bytes (codes_of read.now))) }
{
    out[at] = RAW_BIT;
    put_ends(read, read.len(), 0, out, at + 1)
}

// Writes a raw4 record: its flag byte, and all letters at 4 bits.
pub fn put_raw4(read: &[u8], out: &mut [u8], at: usize) -> usize
    requires read_fits { ReadFits read.now }
    requires read_in_bounds { at + length (raw4_bytes (codes_of read.now)) ≤ length out.old }
    ensures { (out.new
        ≡ pasted out.old at (raw4_bytes (codes_of read.now)))
        × (result ≡ at + length (raw4_bytes (codes_of read.now))) }
{
    out[at] = RAW4_BIT;
    put_pairs(read, out, at + 1)
}

// Writing a size section from the ends of the reads, which are lent; a length is the difference of
// two ends. The contracts cite specs/Form.antt, specs/Sizes.antt of dna and specs/Paste.antt of
// base. Each `requires` of a public function is one that encoding has tested before: at most 50,000
// reads, and room for the bytes.
ghost use Rattle.std.specs.Prelude.{◌≡◌, ◌+◌, ◌≤◌, ◌<◌, length, get_or};
ghost use mathlib.Core.List.{flat_map};
ghost use Rattle.base.specs.Lists.{part, steps_from};
ghost use Rattle.base.specs.Paste.{pasted};
ghost use Rattle.dna.specs.Sizes.{stored_bytes, size_group_bytes, size_section_bytes};
ghost use Rattle.format.specs.HeaderFaults.{max_reads};
ghost use Rattle.format.specs.RuleBlock.{all_equal};
ghost use Rattle.lengths.specs.Form.{
  stored_of,
  stored_after,
  end_before,
  length_before,
  writer_after,
};

use varint16::{put_words, words_length};

// A length below it takes one byte.
const BYTE_LIMIT: u32 = 256;

// How many reads are counted in one sum of 32 bits.
const PART: usize = 1024;

// Where the writing of a group stands.
#[derive(Clone, Copy)]
struct GroupWriter {
    // The byte after what is written.
    place: usize,
    // The flag bits of the reads that are written, the last read lowest: same bits in the lower
    // byte, byte-size bits in the upper one.
    flags: u16,
}

// ---- The section

// How many bytes the size section takes.
pub fn sizes_length(ends: &[u32]) -> usize
    requires { length ends.now ≤ max_reads }
    ensures { result ≡ length (size_section_bytes (stored_of ends.now)) }
{
    let mut sum = ends.len().div_ceil(8) * 2;
    for part in 0..ends.len().div_ceil(PART) {
        sum += part_length(ends, PART * part) as usize;
    }
    sum
}

// Writes the size section from `at` on; the answer is the place after it.
pub fn put_sizes(ends: &[u32], out: &mut [u8], at: usize) -> usize
    requires ends_len_bound { length ends.now ≤ max_reads }
    requires ends_in_bounds { at + length (size_section_bytes (stored_of ends.now)) ≤ length out.old }
    ensures { (out.new ≡ pasted out.old at
        (size_section_bytes (stored_of ends.now)))
        × (result ≡ at + length (size_section_bytes (stored_of ends.now))) }
{
    let mut place = at;
    for group in 0..ends.len().div_ceil(8) {
        place = put_group(ends, 8 * group, out, place);
    }
    place
}

// How many bytes the lengths of the part of the reads from `from` on take. The sum of a part fits
// 32 bits, as lengths do, and so several reads are counted at a time.
fn part_length(ends: &[u32], from: usize) -> u32
    requires { (from < length ends.now) × (length ends.now ≤ max_reads) }
    ensures { result ≡ length (flat_map stored_bytes (part (stored_of ends.now) from 1024)) }
{
    let reads = (ends.len() - from).min(PART);
    let mut sum: u32 = 0;
    let mut before = end_before(ends, from);
    let mut previous = length_before(ends, from);
    for end in &ends[from..from + reads] {
        let size = end.saturating_sub(before);
        sum += stored_length(size, previous) as u32;
        before = *end;
        previous = Some(size);
    }
    sum
}

// Writes the group of the reads from `from` on: its sizes, then its two flag bytes before them.
fn put_group(ends: &[u32], from: usize, out: &mut [u8], at: usize) -> usize
    requires from_in_bounds { (from < length ends.now) × (length ends.now ≤ max_reads) }
    requires from_in_bounds_2 { at + length (size_group_bytes (part (stored_of ends.now) from 8))
        ≤ length out.old }
    ensures { (out.new ≡ pasted out.old at
        (size_group_bytes (part (stored_of ends.now) from 8)))
        × (result ≡ at + length (size_group_bytes (part (stored_of ends.now) from 8))) }
{
    let reads = (ends.len() - from).min(8);
    let start = GroupWriter {
        place: at + 2,
        flags: 0,
    };
    let mut last = length_at(ends, from);
    let mut writer = put_size(last, length_before(ends, from), out, start);
    for k in 1..reads {
        let size = length_at(ends, from + k);
        writer = put_size(size, Some(last), out, writer);
        last = size;
    }
    integers::put_u16(out, at, writer.flags << (8 - reads));
    writer.place
}

// Whether there is a read and all are equally long (flag 0x1).
pub fn all_equal(ends: &[u32]) -> bool
    ensures { result ≡ all_equal (steps_from 0 ends.now) }
{
    if ends.is_empty() {
        return false;
    }
    let first = length_at(ends, 0);
    for i in 1..ends.len() {
        if length_at(ends, i) != first {
            return false;
        }
    }
    true
}

// ---- One length

// How many bytes a length takes after one of `previous` letters.
fn stored_length(size: u32, previous: Option<u32>) -> usize
    ensures { (result ≡ length (stored_bytes (stored_after previous size))) × (result ≤ 262144) }
{
    if previous == Some(size) {
        return 0;
    }
    if size < BYTE_LIMIT {
        return 1;
    }
    words_length(size)
}

// Writes a length after one of `previous` letters: same bit before byte-size bit before words.
// The flags of at most seven reads are gathered before.
fn put_size(size: u32, previous: Option<u32>, out: &mut [u8], writer: GroupWriter) -> GroupWriter
    requires size_in_bounds { writer.place + length (stored_bytes (stored_after previous size))
        ≤ length out.old }
    requires flags_bound { writer.flags ≤ 0x7f7f }
    ensures { (out.new ≡ pasted out.old writer.place
        (stored_bytes (stored_after previous size)))
        × (result ≡ writer_after writer (stored_after previous size)) }
{
    let at = writer.place;
    let flags = writer.flags * 2;
    if previous == Some(size) {
        return GroupWriter {
            place: at,
            flags: flags + 1,
        };
    }
    if size < BYTE_LIMIT {
        out[at] = size as u8;
        return GroupWriter {
            place: at + 1,
            flags: flags + 256,
        };
    }
    GroupWriter {
        place: put_words(size, out, at),
        flags,
    }
}

// ---- Lengths from ends

// The length of the read before read i; none before the first.
fn length_before(ends: &[u32], i: usize) -> Option<u32>
    requires { i < length ends.now }
    ensures { result ≡ length_before ends.now i }
{
    if i == 0 {
        return None;
    }
    Some(length_at(ends, i - 1))
}

// Where the read before read i ends.
fn end_before(ends: &[u32], i: usize) -> u32
    requires { i < length ends.now }
    ensures { result ≡ end_before ends.now i }
{
    if i == 0 {
        return 0;
    }
    ends[i - 1]
}

// The length of read i.
fn length_at(ends: &[u32], i: usize) -> u32
    requires { i < length ends.now }
    ensures { result ≡ get_or (steps_from 0 ends.now) i 0 }
{
    ends[i].saturating_sub(end_before(ends, i))
}

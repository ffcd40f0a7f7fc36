// The lengths of a block's reads (refusals 9 and 10): a cursor that gives them read by read, and
// the walk that validates them all; blocks.rt takes them from a block, write.rt writes a size
// section. The contracts cite specs/Cursor.antt and specs/Given.antt; none has a `requires`.
#![tactic(auto)]

ghost use Rattle.std.specs.Prelude.{◌≡◌, cond, ◌+◌, length, ltb};
ghost use Rattle.base.specs.Numbers.{non_negative};
ghost use Rattle.dna.specs.Refused.{number_of};
ghost use Rattle.dna.specs.SizesAt.{sizes_answer, fixed_lengths, lengths_given};
ghost use Rattle.lengths.specs.Given.{
  lengths_found,
  lengths_sum,
  lengths_number,
};
ghost use Rattle.lengths.specs.Cursor.{
  first_cursor,
  flags_taken,
  words_from,
  size_at,
  length_or_refused,
  length_step,
  cursor_ended,
};

use dna::refusals::Refusal;
use varint16::WORD_ESCAPE;

// The lengths of a block.
pub mod blocks;

// Writing a size section.
pub mod write;

// The most letters that a read may have.
const MAX_READ_LENGTH: u32 = 100_000;

// Where a walk over the lengths stands.
#[derive(Clone, Copy)]
pub struct SizeCursor {
    // The next byte of the section.
    pub at: usize,
    // The length before; 0 before the first read.
    pub previous: u32,
    // How many reads of the group are behind; 0 or 8 where a group begins.
    pub place: u8,
    // The group's same bits and byte-size bits that are left, the next one highest.
    pub same: u8,
    pub sizes: u8,
    // Flag 0x1: each length is the one before, and the section holds none.
    pub fixed: bool,
}

// ---- One length after the other

// The cursor at the first read. With flag 0x1, `fixed`, each length is l_read, here `each`. Both are
// fields of the table of contents, as the definition `lengths_given` takes them, and l_read is there
// without the flag too: an Option in their place would only be made to be taken apart.
pub fn first_cursor(fixed: bool, each: i32) -> SizeCursor
    ensures { result ≡ first_cursor fixed (non_negative each) }
{
    let size = integers::non_negative(each);
    SizeCursor {
        fixed,
        at: 0,
        place: 0,
        previous: first_previous(fixed, size),
        same: 0,
        sizes: 0,
    }
}

// The length of the next read, and the cursor after it; none is refusal 9.
pub fn next_length(section: &[u8], cursor: SizeCursor) -> Option<(u32, SizeCursor)>
    ensures { result ≡ length_step section.now cursor }
{
    if cursor.fixed {
        return length_or_refused(cursor.previous, cursor);
    }
    let flagged = take_flags(section, cursor)?;
    let (size, next) = read_size(section, flagged)?;
    length_or_refused(
        size,
        SizeCursor {
            fixed: flagged.fixed,
            at: next,
            place: flagged.place % 8 + 1,
            previous: size,
            same: flagged.same % 128 * 2,
            sizes: flagged.sizes % 128 * 2,
        },
    )
}

// Whether all of the section is used, and no bit is left past the last read.
#[tactic(auto, unfolding(crate::specs::Cursor::cursor_ended))]
pub fn cursor_ended(section: &[u8], cursor: SizeCursor) -> bool
    ensures { result ≡ cursor_ended section.now cursor }
{
    if cursor.at < section.len() {
        return false;
    }
    if cursor.same != 0 {
        return false;
    }
    cursor.sizes == 0
}

// ---- All lengths

// The first of 9 and 10 that fits: flag 0x1, l_read, n_reads, the raw DNA size, the size section.
pub fn lengths_fault(
    section: &[u8],
    fixed: bool,
    each: i32,
    reads: u32,
    raw: u32,
) -> Result<(), Refusal>
    ensures { number_of result ≡ lengths_number raw
        (lengths_found (lengths_given fixed (non_negative each) reads section.now)) }
{
    let size = integers::non_negative(each);
    let Some(sum) = lengths_sum(section, fixed, size, reads) else {
        return Err(Refusal::LengthsInvalid);
    };
    if u64::from(raw) == sum {
        return Ok(());
    }
    Err(Refusal::DnaSizeWrong)
}

// The sum of the lengths of all reads, l_read as a count; none is refusal 9.
#[tactic(auto, unfolding(dna::specs::SizesAt::lengths_given))]
pub fn lengths_sum(section: &[u8], fixed: bool, each: u32, reads: u32) -> Option<u64>
    ensures { result ≡ lengths_sum
        (lengths_found (lengths_given fixed each reads section.now)) }
{
    if fixed {
        return fixed_sum(section, each, reads);
    }
    section_sum(section, reads)
}

// The sum with flag 0x1.
fn fixed_sum(section: &[u8], each: u32, reads: u32) -> Option<u64>
    ensures { result ≡ lengths_sum
        (lengths_found (fixed_lengths each reads section.now)) }
{
    if 0 < section.len() {
        return None;
    }
    if reads == 0 {
        return Some(0);
    }
    if each == 0 {
        return None;
    }
    if MAX_READ_LENGTH < each {
        return None;
    }
    Some(u64::from(reads) * u64::from(each))
}

// The sum of what the section stores.
fn section_sum(section: &[u8], reads: u32) -> Option<u64>
    ensures { result ≡ lengths_sum (lengths_found (sizes_answer reads section.now)) }
{
    let mut cursor = first_cursor(false, 0);
    let mut sum: u64 = 0;
    for _read in 0..reads {
        let (size, next) = next_length(section, cursor)?;
        sum += u64::from(size);
        cursor = next;
    }
    if cursor_ended(section, cursor) {
        return Some(sum);
    }
    None
}

// ---- Parts of a step

// The cursor with the flag bytes of its group, which are taken at the group's start; none where the
// section ends before them.
#[tactic(auto, unfolding(crate::specs::Cursor::flags_taken))]
fn take_flags(section: &[u8], cursor: SizeCursor) -> Option<SizeCursor>
    ensures { result ≡ flags_taken section.now cursor }
{
    if cursor.place % 8 != 0 {
        return Some(cursor);
    }
    let at = cursor.at;
    if cut_at(section, at) {
        return None;
    }
    Some(SizeCursor {
        fixed: cursor.fixed,
        at: at + 2,
        place: 0,
        previous: cursor.previous,
        same: section[at],
        sizes: section[at + 1],
    })
}

// The length at a cursor that holds its flag bytes, and the byte after it; none where both bits are
// set, the section ends too soon, or a word or the length is too large.
fn read_size(section: &[u8], cursor: SizeCursor) -> Option<(u32, usize)>
    ensures { result ≡ size_at section.now cursor }
{
    let at = cursor.at;
    if 128 <= cursor.same {
        if 128 <= cursor.sizes {
            return None;
        }
        return Some((cursor.previous, at));
    }
    if cursor.sizes < 128 {
        return read_words(section, at);
    }
    if section.len() <= at {
        return None;
    }
    Some((u32::from(section[at]), at + 1))
}

// A length in words and the byte after it, refused as soon as it is above 100,000.
fn read_words(section: &[u8], start: usize) -> Option<(u32, usize)>
    ensures { result ≡ words_from section.now start }
{
    let mut at = start;
    let mut sum: u32 = 0;
    while !cut_at(section, at) {
        let word = u32::from(integers::u16_at(section, at));
        if WORD_ESCAPE < word {
            return None;
        }
        if MAX_READ_LENGTH < sum + word {
            return None;
        }
        if word < WORD_ESCAPE {
            return Some((sum + word, at + 2));
        }
        sum += word;
        at += 2;
    }
    None
}

// A length, unless it is 0 or above 100,000.
#[tactic(auto, unfolding(crate::specs::Cursor::length_or_refused, dna::specs::Sizes::length_invalid))]
fn length_or_refused(size: u32, cursor: SizeCursor) -> Option<(u32, SizeCursor)>
    ensures { result ≡ length_or_refused size cursor }
{
    if size == 0 {
        return None;
    }
    if MAX_READ_LENGTH < size {
        return None;
    }
    Some((size, cursor))
}

// The length before the first read.
fn first_previous(fixed: bool, each: u32) -> u32
    ensures { result ≡ cond fixed each 0 }
{
    if fixed {
        return each;
    }
    0
}

// Whether the section ends before the two bytes at `at` do.
fn cut_at(section: &[u8], at: usize) -> bool
    ensures { result ≡ ltb (length section.now) (at + 2) }
{
    if section.len() < 2 {
        return true;
    }
    section.len() - 2 < at
}

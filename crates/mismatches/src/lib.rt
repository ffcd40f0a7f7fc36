// Where a read differs from the reference, as the entries of a record (01, The writer's fixed
// rule): differences, and fillers where they are more than 63 letters apart. The contracts cite
// specs/Entries.antt, of the letters that specs/Compared.antt names.
#![tactic(auto)]

pub mod compare;

ghost use Rattle.std.specs.Prelude.{◌≡◌, map, ◌+◌, ◌*◌, ◌≤◌, ◌<◌, length};
ghost use Rattle.base.specs.Paste.{pasted};
ghost use Rattle.dna.specs.Record.{max_entries, max_entry_offset, entry_byte};
ghost use Rattle.format.specs.RuleEntries.{filler_count};
ghost use Rattle.format.specs.RuleBlock.{code_of_letter};
ghost use Rattle.mismatches.specs.Entries.{fillers_from, EntriesPut, AlignedFits};
ghost use Rattle.mismatches.specs.Compared.{given_at, entries_of, entries_to};

use compare::Aligned;
use dna::MAX_ENTRIES;

// The most letters from one entry to the next.
const MAX_ENTRY_OFFSET: usize = 63;

// Writes the entries of the aligned letters to the start of the list, a byte each, and gives their
// number; None where there are more than 31, found before the 32nd is written.
pub fn put_entries(aligned: &Aligned, list: &mut [u8]) -> Option<usize>
    requires { (AlignedFits aligned.now.letters.now 0 (length aligned.now.letters.now))
        × (max_entries ≤ length list.old) }
    ensures { EntriesPut list.old list.new 0 (entries_of aligned.now) result }
{
    let mut count: usize = 0;
    let mut before: usize = 0;
    let mut from: usize = 0;
    while let Some(place) = aligned.next_difference(from) {
        let code = code_of_letter(aligned.letters[place]);
        count = put_gap(aligned, before, place, code, list, count)?;
        before = place;
        from = place + 1;
    }
    Some(count)
}

// Writes the entries of the gap from `before` to the difference at `place` after the first `count`
// of the list, and gives how many there are then; None where there are more than 31. The list is
// room that is lent and filled from the start, with its count beside it, since there is no heap.
fn put_gap(
    aligned: &Aligned,
    before: usize,
    place: usize,
    code: u8,
    list: &mut [u8],
    count: usize,
) -> Option<usize>
    requires { (before ≤ place) × (place < length aligned.now.letters.now) × (code < 4)
        × (count ≤ max_entries) × (max_entries ≤ length list.old) }
    ensures { EntriesPut list.old list.new count (entries_to aligned.now before place code)
        result }
{
    let gap = place - before;
    let fillers = filler_count(gap);
    if MAX_ENTRIES <= count + fillers {
        return None;
    }
    put_fillers(aligned, before, fillers, list, count);
    list[count + fillers] = entry_byte(gap - MAX_ENTRY_OFFSET * fillers, code);
    Some(count + fillers + 1)
}

// How many fillers a gap gets.
fn filler_count(gap: usize) -> usize
    ensures { result ≡ filler_count gap }
{
    gap.saturating_sub(1) / MAX_ENTRY_OFFSET
}

// Writes so many fillers after `before`, each with what the reference gives there, after the first
// `count` entries of the list.
fn put_fillers(aligned: &Aligned, before: usize, fillers: usize, list: &mut [u8], count: usize)
    requires { (before + max_entry_offset * fillers < length aligned.now.letters.now)
        × (count + fillers ≤ length list.old) }
    ensures { list.new
        ≡ pasted list.old count
        (map entry_byte (fillers_from (given_at aligned.now) before fillers)) }
{
    for j in 0..fillers {
        let code = aligned.expected_code(before + MAX_ENTRY_OFFSET * (j + 1));
        list[count + j] = entry_byte(MAX_ENTRY_OFFSET, code);
    }
}

// The byte of an entry.
fn entry_byte(offset: usize, code: u8) -> u8
    requires { (offset ≤ max_entry_offset) × (code < 4) }
    ensures { result ≡ entry_byte (record { offset = offset; code = code }) }
{
    offset as u8 * 4 + code
}

// The code of a letter A, C, G, T, by two bits of its ASCII.
fn code_of_letter(letter: u8) -> u8
    requires { code_of_letter letter < 4 }
    ensures { result ≡ code_of_letter letter }
{
    (0xb4u8 >> (2 * (letter / 2 % 4))) % 4
}

// The differences of a decoded record (01, Records: counts of a block): entries that are not what
// the reference gives and do not stand under an N. Entries and N list are walked in the section.
ghost use Rattle.std.specs.Prelude.{◌≡◌, true, false, not, cond, ◌&&◌, ◌+◌, ◌/◌, ◌≤◌, ◌<◌, length, eqb};
ghost use Rattle.base.specs.Lists.{member};
ghost use Rattle.dna.specs.Sizes.{max_read_length};
ghost use Rattle.dna.specs.Reference.{max_reference_bases, strand_base};
ghost use Rattle.dna.specs.Alignment.{n_positions};
ghost use Rattle.dna.specs.Counts.{record_counts};
ghost use Rattle.dna.specs.RecordAt.{entries_at, offsets_at};
ghost use Rattle.record_letters.specs.Laid.{
  is_forward,
  is_found,
  offsets_of,
  offsets_in,
  stored_in,
  context_in,
  local_leftmost,
  LocalExact,
  ListsLaid,
  EntriesLaid,
  Laid,
  differs_at,
  differences_from,
};

use dna::{Placement, Record, Strand};
use records::Layout;
use records::nlist::read_n_place;
use reference::{strand_base, stretch_index};

// The differences of a record of a read of `size` letters.
pub fn differences(
    section: &[u8],
    reference: &[u8],
    record: Record,
    layout: Layout,
    size: usize,
) -> u64
    requires { Laid section.now reference.now size «record» layout }
    ensures { result ≡ (record_counts reference.now (context_in 0 size «record»)
        (stored_in section.now size «record» layout)).differences }
{
    match record {
        Record::Perfect(_) => 0,
        Record::Global(placement) => {
            let strand = placement.strand;
            let forward = is_forward(strand);
            let leftmost = placement.position as usize;
            aligned_differences(section, reference, forward, leftmost, layout, 0, size, size)
        }
        Record::Local(placement) => {
            let strand = placement.strand;
            let left = usize::from(placement.left);
            let aligned = size - (left + usize::from(placement.right));
            let leftmost = local_leftmost(placement, aligned);
            aligned_differences(
                section,
                reference,
                is_forward(strand),
                leftmost,
                layout,
                left,
                aligned,
                size,
            )
        }
        Record::Raw => 0,
        Record::Raw4 => 0,
    }
}

// The differences of the entries of an aligned part, which begins after `left` letters.
fn aligned_differences(
    section: &[u8],
    reference: &[u8],
    forward: bool,
    leftmost: usize,
    layout: Layout,
    left: usize,
    aligned: usize,
    size: usize,
) -> u64
    requires { (ListsLaid section.now size layout)
        × (EntriesLaid section.now reference.now layout leftmost aligned)
        × (left + aligned ≤ size) }
    ensures { result ≡ differences_from
        (differs_at reference.now forward leftmost aligned left
        (n_positions (offsets_in section.now size layout)))
        0 (entries_at section.now layout.entries layout.entry_count) }
{
    let mut sum: u64 = 0;
    let mut place: usize = 0;
    for k in 0..layout.entry_count {
        let entry = section[layout.entries + k];
        place += usize::from(entry / 4);
        let index = stretch_index(forward, leftmost, aligned, place);
        sum += entry_difference(
            section,
            reference,
            forward,
            index,
            entry % 4,
            layout,
            size,
            left + place,
        );
    }
    sum
}

// 1 where an entry is a difference, else 0; its letter is looked for in the N list only if the
// reference gives another base.
fn entry_difference(
    section: &[u8],
    reference: &[u8],
    forward: bool,
    index: usize,
    code: u8,
    layout: Layout,
    size: usize,
    letter: usize,
) -> u64
    requires { (ListsLaid section.now size layout) × (index / 4 < length reference.now) }
    ensures { result ≡ cond
        (not (eqb code (strand_base reference.now forward index))
        && not (member letter (n_positions (offsets_in section.now size layout))))
        1 0 }
{
    if strand_base(reference, forward, index) == code {
        return 0;
    }
    if under_n(section, layout.n_list, layout.n_count, size, letter) {
        return 0;
    }
    1
}

// Whether a letter is among the `count` places of the N list whose words begin at `first`.
fn under_n(section: &[u8], first: usize, count: usize, size: usize, letter: usize) -> bool
    requires { (first ≤ length section.now) × (size ≤ max_read_length)
        × (is_found (offsets_at count size 0 0 section.now first) ≡ true) }
    ensures { result ≡ member letter
        (n_positions (offsets_of (offsets_at count size 0 0 section.now first))) }
{
    let mut next = first;
    let mut place: usize = 0;
    for _ in 0..count {
        let Ok(there) = read_n_place(section, next, place, size) else {
            return false;
        };
        if there.place == letter {
            return true;
        }
        place = there.place;
        next = there.next;
    }
    false
}

// The lowest index of a local record's stretch: it runs up from the position, and on the reverse
// strand down from it (02, Ticket 2).
pub fn local_leftmost(placement: Placement, aligned: usize) -> usize
    requires local_exact { LocalExact placement aligned }
    requires aligned_bound { local_leftmost placement aligned + aligned ≤ max_reference_bases }
    ensures { result ≡ local_leftmost placement aligned }
{
    let strand = placement.strand;
    let position = placement.position as usize;
    if is_forward(strand) {
        return position;
    }
    position + 1 - aligned
}

// Whether a strand is the forward one.
pub fn is_forward(strand: Strand) -> bool
    ensures { result ≡ is_forward strand }
{
    match strand {
        Strand::Forward => true,
        Strand::Reverse => false,
    }
}

// Where the nine sections stand, 0 to 8 (01: bodies). The sums are exact: a length is below 2 ^ 32
// and l_header below 2 ^ 31.
ghost use Rattle.std.specs.Prelude.{◌≡◌, ◌*◌, ◌≤◌, ◌<◌, ◌^◌, take};
ghost use Rattle.base.specs.Lists.{total};
ghost use Rattle.format.specs.Header.{header_of};
ghost use Rattle.format.specs.Sections.{
  section_lengths,
  section_start,
  section_length,
  block_length,
};
ghost use Rattle.format.specs.BlockAnswer.{section_answer, span_answer};
ghost use Rattle.header.specs.Part.{BeginsAt, span_of};

use crate::faults::header_fault;
use crate::table::Table;
use integers::u32_at;

// How many sections a block has.
pub const SECTIONS: usize = 9;

// The numbers of those that are read; the others are carried unread. They are numbers and no enum,
// since the C interface asks for a section by any number (`ora_section`).
pub const DNA_SECTION: u64 = 0;

pub const NAMES_SECTION: u64 = 1;

pub const SIZE_SECTION: u64 = 4;

pub const N_SECTION: u64 = 5;

// Where a section stands in the block, in bytes.
#[derive(Clone, Copy)]
pub struct Span {
    pub offset: usize,
    pub size: usize,
}

// The span of a section that is empty.
const EMPTY_SPAN: Span = Span { offset: 0, size: 0 };

// The section that is asked for, the very part of the block; empty if the number is above 8 or the
// header earns 2 to 8.
pub fn section(input: &[u8], number: u64) -> &[u8]
    ensures { (result.now ≡ section_answer input.now number)
        × BeginsAt input.entry result (span_answer input.now number).offset }
{
    let Span { offset, size } = section_span(input, number);
    &input[offset..offset + size]
}

// Where that section stands; both 0 where it is empty.
pub fn section_span(input: &[u8], number: u64) -> Span
    ensures { span_of result ≡ span_answer input.now number }
{
    if header_fault(input).is_err() {
        return EMPTY_SPAN;
    }
    let table = Table { input };
    let index = number as usize;
    let size = table.section_length(index);
    if size == 0 {
        return EMPTY_SPAN;
    }
    Span {
        offset: table.section_start(index),
        size,
    }
}

impl<'a> Table<'a> {
    // Where section `number` starts; above 8, where the block ends.
    pub fn section_start(self, number: usize) -> usize
        ensures { (result ≡ section_start (header_of self.entry.input.now) number) × (result < 2 ^ 36) }
    {
        if SECTIONS <= number {
            return self.block_length();
        }
        self.header_length() + self.lengths_before(number)
    }

    // How many bytes section `number` has; none above 8.
    pub fn section_length(self, number: usize) -> usize
        ensures { (result ≡ section_length (header_of self.entry.input.now) number) × (result < 2 ^ 32) }
    {
        if SECTIONS <= number {
            return 0;
        }
        u32_at(self.input, 6 + 4 * number) as usize
    }

    // The length of the block: its header and its sections.
    pub fn block_length(self) -> usize
        ensures { (result ≡ block_length (header_of self.entry.input.now)) × (result < 2 ^ 36) }
    {
        self.header_length() + self.lengths_before(SECTIONS)
    }

    // How many bytes the sections before section `number` have.
    fn lengths_before(self, number: usize) -> usize
        requires { number ≤ 9 }
        ensures { (result ≡ total (take number (section_lengths (header_of self.entry.input.now))))
            × (result ≤ 9 * 2 ^ 32) }
    {
        let mut sum: usize = 0;
        for k in 0..number {
            sum += self.section_length(k);
        }
        sum
    }
}

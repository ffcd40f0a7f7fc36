// The fields of a table of contents, each at its offset.
#![tactic(auto, unfolding(format::specs::Header::header_of))]

ghost use Rattle.std.specs.Prelude.{◌≡◌, ◌<◌, ◌^◌};
ghost use Rattle.base.specs.Numbers.{non_negative};
ghost use Rattle.format.specs.Header.{
  header_of,
  flag_set,
  same_length_flag,
  names_flag,
  read_count,
};

use crate::faults::{NAMES_FLAG, SAME_LENGTH_FLAG, flag_set};
use crate::table::Table;
use integers::{i32_at, non_negative, u16_at, u32_at, u64_at};

impl<'a> Table<'a> {
    pub fn magic(self) -> u16
        ensures { result ≡ (header_of self.entry.input.now).magic }
    {
        u16_at(self.input, 0)
    }

    pub fn l_header(self) -> i32
        ensures { result ≡ (header_of self.entry.input.now).l_header }
    {
        i32_at(self.input, 2)
    }

    pub fn flags(self) -> u32
        ensures { result ≡ (header_of self.entry.input.now).flags }
    {
        u32_at(self.input, 42)
    }

    pub fn l_read(self) -> i32
        ensures { result ≡ (header_of self.entry.input.now).l_read }
    {
        i32_at(self.input, 46)
    }

    pub fn n_reads(self) -> i32
        ensures { result ≡ (header_of self.entry.input.now).n_reads }
    {
        i32_at(self.input, 50)
    }

    pub fn version(self) -> u16
        ensures { result ≡ (header_of self.entry.input.now).version }
    {
        u16_at(self.input, 54)
    }

    pub fn b_id(self) -> u64
        ensures { result ≡ (header_of self.entry.input.now).b_id }
    {
        u64_at(self.input, 56)
    }

    pub fn raw_dna_size(self) -> u32
        ensures { result ≡ (header_of self.entry.input.now).l_dna_raw }
    {
        u32_at(self.input, 73)
    }

    // The length of the header with its extra bytes.
    pub fn header_length(self) -> usize
        ensures { (result ≡ non_negative (header_of self.entry.input.now).l_header)
            × (result < 2 ^ 31) }
    {
        signed_size(self.l_header())
    }

    // The number of reads.
    pub fn read_count(self) -> u32
        ensures { (result ≡ read_count (header_of self.entry.input.now)) × (result < 2 ^ 31) }
    {
        non_negative(self.n_reads())
    }

    // Whether all reads have one length, l_read.
    pub fn same_length(self) -> bool
        ensures { result ≡ flag_set (header_of self.entry.input.now).flags same_length_flag }
    {
        flag_set(self.flags(), SAME_LENGTH_FLAG)
    }

    // Whether the names are stored in tokens.
    pub fn names_stored(self) -> bool
        ensures { result ≡ flag_set (header_of self.entry.input.now).flags names_flag }
    {
        flag_set(self.flags(), NAMES_FLAG)
    }
}

// A signed number as a size: 0 where it is negative.
pub fn signed_size(number: i32) -> usize
    ensures { (result ≡ non_negative number) × (result < 2 ^ 31) }
{
    non_negative(number) as usize
}

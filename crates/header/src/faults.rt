// The faults 2 to 8 of a header (01, Numbers of refusal). Each is a test that can be asked alone.
ghost use Rattle.std.specs.Prelude.{◌≡◌, ◌<◌};
ghost use Rattle.base.specs.Answer.{first_number};
ghost use Rattle.dna.specs.Refused.{number_of};
ghost use Rattle.format.specs.Header.{flag_set};
ghost use Rattle.format.specs.HeaderFaults.{
  signed_below,
  signed_outside,
  header_truncated,
  magic_wrong,
  version_unsupported,
  header_length_too_small,
  flag_unsupported,
  read_count_out_of_range,
  sections_truncated,
  table_faults,
  header_faults,
};

use crate::fields::signed_size;
use crate::table::{TABLE_LENGTH, Table};
use dna::refusals::Refusal;

pub const MAGIC: u16 = 0x7c49;

pub const MIN_VERSION: u16 = 20505;

pub const MAX_VERSION: u16 = 29999;

pub const MAX_READS: usize = 50_000;

// All reads have one length.
pub const SAME_LENGTH_FLAG: u32 = 0x1;

// The names are stored in tokens.
pub const NAMES_FLAG: u32 = 0x8;

// The DNA section holds plain letters.
pub const FALLBACK_FLAG: u32 = 0x40;

// The sections are encrypted.
pub const ENCRYPTED_FLAG: u32 = 0x80;

// The first of 2 to 8 that the header earns.
pub fn header_fault(input: &[u8]) -> Result<(), Refusal>
    ensures { number_of result ≡ first_number (header_faults input.now) }
{
    if header_truncated(input) {
        return Err(Refusal::HeaderTruncated);
    }
    let table = Table { input };
    table.fault(table.flag_unsupported())
}

#[tactic(auto, unfolding(format::specs::HeaderFaults::header_truncated))]
pub fn header_truncated(input: &[u8]) -> bool
    ensures { result ≡ header_truncated input.now }
{
    input.len() < TABLE_LENGTH
}

impl<'a> Table<'a> {
    // The first of 3 to 8 that a table of contents earns; `unsupported` says whether its flags earn 6.
    #[tactic(auto, unfolding(dna::specs::Refused::number_of, dna::specs::Refused::refusal_number, base::specs::Answer::checked, format::specs::HeaderFaults::table_faults))]
    pub fn fault(self, unsupported: bool) -> Result<(), Refusal>
        ensures { number_of result ≡ first_number (table_faults self.entry.input.now unsupported) }
    {
        if self.magic_wrong() {
            return Err(Refusal::MagicWrong);
        }
        if self.version_unsupported() {
            return Err(Refusal::VersionUnsupported);
        }
        if self.header_length_too_small() {
            return Err(Refusal::HeaderLengthTooSmall);
        }
        if unsupported {
            return Err(Refusal::FlagUnsupported);
        }
        if self.read_count_out_of_range() {
            return Err(Refusal::ReadCountOutOfRange);
        }
        if self.sections_truncated() {
            return Err(Refusal::SectionsTruncated);
        }
        Ok(())
    }

    #[tactic(auto, unfolding(format::specs::HeaderFaults::magic_wrong))]
    pub fn magic_wrong(self) -> bool
        ensures { result ≡ magic_wrong self.entry.input.now }
    {
        self.magic() != MAGIC
    }

    #[tactic(auto, unfolding(format::specs::HeaderFaults::version_unsupported))]
    pub fn version_unsupported(self) -> bool
        ensures { result ≡ version_unsupported self.entry.input.now }
    {
        let number = self.version();
        number < MIN_VERSION || MAX_VERSION < number
    }

    pub fn header_length_too_small(self) -> bool
        ensures { result ≡ header_length_too_small self.entry.input.now }
    {
        is_below(TABLE_LENGTH, self.l_header())
    }

    #[tactic(auto, unfolding(format::specs::HeaderFaults::flag_unsupported))]
    pub fn flag_unsupported(self) -> bool
        ensures { result ≡ flag_unsupported self.entry.input.now }
    {
        let flags = self.flags();
        flag_set(flags, FALLBACK_FLAG) || flag_set(flags, ENCRYPTED_FLAG)
    }

    pub fn read_count_out_of_range(self) -> bool
        ensures { result ≡ read_count_out_of_range self.entry.input.now }
    {
        is_outside(MAX_READS, self.n_reads())
    }

    #[tactic(auto, unfolding(format::specs::HeaderFaults::sections_truncated))]
    pub fn sections_truncated(self) -> bool
        ensures { result ≡ sections_truncated self.entry.input.now }
    {
        self.input.len() < self.block_length()
    }
}

// Whether a flag, a power of 2, is set.
#[tactic(auto, unfolding(format::specs::Header::flag_set))]
pub fn flag_set(flags: u32, flag: u32) -> bool
    requires { 0 < flag }
    ensures { result ≡ flag_set flags flag }
{
    flags / flag % 2 == 1
}

// Below a bound; so is every negative number.
fn is_below(bound: usize, number: i32) -> bool
    ensures { result ≡ signed_below bound number }
{
    if 0 <= number {
        return signed_size(number) < bound;
    }
    true
}

// Outside 0 to a bound; so is every negative number.
fn is_outside(bound: usize, number: i32) -> bool
    ensures { result ≡ signed_outside bound number }
{
    if number < 0 {
        return true;
    }
    bound < signed_size(number)
}

// What the writer refuses of names with 41. The contracts cite specs/WrittenNames.antt of tokens;
// a `requires` says that the names lie in the bytes.
ghost use Rattle.std.specs.Prelude.{◌≡◌, not, ◌-◌};
ghost use Rattle.base.specs.Lists.{any};
ghost use Rattle.tokens.specs.Split.{is_printable, name_length_invalid};
ghost use Rattle.tokens.specs.WrittenNames.{name_ends_invalid};
ghost use Rattle.tokens.specs.WrittenNames.{names_lent, token_count, token_counts_differ};
ghost use Rattle.names_writer.specs.Lent.{NamesLie};

use crate::parts::part_at;
use crate::tokeniser::split_name;

// The longest name.
const MAX_LENGTH: u32 = 255;

// Whether the ends do not rise from 0 by 1 to 255, or the last is not the number of bytes.
pub fn name_ends_invalid(names: &[u8], ends: &[u32]) -> bool
    ensures { result ≡ name_ends_invalid names.now ends.now }
{
    let mut before: u32 = 0;
    for end in ends {
        if length_invalid(end.saturating_sub(before)) {
            return true;
        }
        before = *end;
    }
    before as usize != names.len()
}

// Whether a name has no byte, or more than it may have.
#[tactic(auto, unfolding(tokens::specs::Split::name_length_invalid))]
fn length_invalid(length: u32) -> bool
    ensures { result ≡ name_length_invalid length }
{
    length == 0 || MAX_LENGTH < length
}

// Whether a byte is not printable.
pub fn byte_invalid(names: &[u8]) -> bool
    ensures { result ≡ any (λ byte. not (is_printable byte)) names.now }
{
    names.iter().any(|byte| !(32..=126).contains(byte))
}

// Whether two names have token counts that differ. `marks` is room for the ends of tokens.
pub fn counts_differ(names: &[u8], ends: &[u32], marks: &mut [u8]) -> bool
    requires { NamesLie names.now ends.now marks.old }
    ensures { result ≡ token_counts_differ (names_lent names.now ends.now) }
{
    let first = token_count(names, ends, marks);
    for i in 0..ends.len() {
        let count = split_name(part_at(names, ends, i), marks);
        if count != first {
            return true;
        }
    }
    false
}

// How many tokens the first name has; 0 where there is none.
pub fn token_count(names: &[u8], ends: &[u32], marks: &mut [u8]) -> usize
    requires { NamesLie names.now ends.now marks.old }
    ensures { result ≡ token_count (names_lent names.now ends.now) }
{
    if ends.len() == 0 {
        return 0;
    }
    split_name(part_at(names, ends, 0), marks)
}

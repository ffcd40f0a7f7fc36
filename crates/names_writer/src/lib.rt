// Read names as the writer takes them: what it refuses, and the names section by columns. The
// contracts cite specs/WrittenNames.antt of tokens.
#![tactic(auto)]

ghost use Rattle.std.specs.Prelude.{◌≡◌, false, map, ◌+◌, ◌≤◌, length};
ghost use Rattle.base.specs.Paste.{pasted};
ghost use Rattle.base.specs.Place.{At};
ghost use Rattle.tokens.specs.Columns.{column_type, column_bytes};
ghost use Rattle.tokens.specs.WrittenNames.{names_refused, names_lent, columns_for, written_names};

use column::EMPTY;
use measuring::{measure_rows, put_sizes};
use pieces::START;
use refused::{byte_invalid, counts_differ, name_ends_invalid, token_count};
use table::put_table;
use writing::put_columns;

pub mod column;
pub mod measuring;
pub mod parts;
pub mod pieces;
pub mod refused;
pub mod rows;
pub mod steps;
pub mod table;
#[cfg(test)]
mod tests;
pub mod tokeniser;
pub mod writing;

// The longest name, and so the most tokens.
pub const MAX_NAME: usize = 255;

// Whether the writer refuses these names with 41.
#[tactic(auto, unfolding(tokens::specs::WrittenNames::names_refused))]
pub fn names_refused(names: &[u8], ends: &[u32], reads: usize) -> bool
    ensures { result ≡ names_refused reads names.now ends.now }
{
    if ends.len() != reads {
        return true;
    }
    if name_ends_invalid(names, ends) {
        return true;
    }
    if byte_invalid(names) {
        return true;
    }
    let mut marks = [0u8; MAX_NAME];
    counts_differ(names, ends, &mut marks)
}

// The types and sizes of the columns of names that are not refused, to the start of `kinds` and
// `sizes`; the answer is the length of the names section.
pub fn measure(names: &[u8], ends: &[u32], kinds: &mut [u8], sizes: &mut [usize]) -> usize
    requires ends_value { names_refused (length ends.now) names.now ends.now ≡ false }
    requires ends_len_bound { (length ends.now ≤ 50000) × (255 ≤ length kinds.old)
        × (255 ≤ length sizes.old) }
    ensures { (result
        ≡ length (written_names (names_lent names.now ends.now)))
        × At kinds.new 0
        (map column_type (columns_for (names_lent names.now ends.now)))
        × At sizes.new 0 (map (λ column. length (column_bytes column))
        (columns_for (names_lent names.now ends.now))) }
{
    if ends.len() == 0 {
        return 0;
    }
    let mut marks = [0u8; MAX_NAME];
    let count = token_count(names, ends, &mut marks);
    let mut room = [EMPTY; MAX_NAME];
    let columns = &mut room[0..count];
    measure_rows(names, ends, &mut marks, columns);
    put_sizes(columns, ends.len(), kinds, sizes)
}

// Writes the names section to `out` from `at` on; `kinds` and `sizes` are as `measure` leaves them.
pub fn put_section(
    names: &[u8],
    ends: &[u32],
    kinds: &[u8],
    sizes: &[usize],
    out: &mut [u8],
    at: usize,
)
    requires ends_value { names_refused (length ends.now) names.now ends.now ≡ false }
    requires ends_len_bound { length ends.now ≤ 50000 }
    requires at { At kinds.now 0 (map column_type (columns_for (names_lent names.now ends.now)))
        × At sizes.now 0 (map (λ column. length (column_bytes column))
        (columns_for (names_lent names.now ends.now))) }
    requires ends_in_bounds { at + length (written_names (names_lent names.now ends.now))
        ≤ length out.old }
    ensures { out.new ≡ pasted out.old at
        (written_names (names_lent names.now ends.now)) }
{
    if ends.len() == 0 {
        return;
    }
    let mut marks = [0u8; MAX_NAME];
    let count = token_count(names, ends, &mut marks);
    put_table(kinds, sizes, count, out, at);
    let mut room = [START; MAX_NAME];
    let cursors = &mut room[0..count];
    put_columns(
        names,
        ends,
        kinds,
        sizes,
        &mut marks,
        cursors,
        out,
        at + 4 + 9 * count,
    );
}

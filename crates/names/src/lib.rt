// Reading a names section row by row, in two passes: the first judges it, the second writes the
// names. Between rows each column has a place, a number and its type. The contracts cite
// specs/NamesAt.antt of tokens, specs/Judged.antt and specs/Cursors.antt; each `requires` of a public
// function is one that the caller has tested before.
#![tactic(auto)]

ghost use Rattle.std.specs.Prelude.{◌≡◌, true, false, ◌+◌, ◌≤◌, ◌<◌, length, IsSome, IfSome};
ghost use mathlib.Core.List.{map, flatten};
ghost use Rattle.base.specs.Lists.{any, places_from};
ghost use Rattle.base.specs.Paste.{pasted};
ghost use Rattle.tokens.specs.ColumnsAt.{cursor_after, token_invalid};
ghost use Rattle.tokens.specs.NamesAt.{names_invalid, names_read, names_from, rows_invalid, row_at};
ghost use Rattle.names.specs.Cursors.{cursors_of, row_size, TableFits, RowPut};
ghost use Rattle.names.specs.Judged.{judged, judged_from};

use crate::column::{Column, Kind};
use crate::table::{MAX_COLUMNS, ends_wrong, first_places, table_invalid};
use crate::token::{judge_token, put_token, starts_digits};
use integers::u32_at;

// A column, and its type.
mod column;

// The table before the columns.
mod table;

// The tokens of a column.
mod token;

// Decimal digits.
mod decimal;

// The longest name.
const MAX_NAME: usize = 255;

// A column before the table is read.
const NO_COLUMN: Column = Column {
    place: 0,
    value: 0,
    kind: Kind::Strings,
};

// Judges the names of so many reads: the bytes of all names, or None where the section stores none
// (40).
pub fn judge(section: &[u8], reads: usize) -> Option<u64>
    requires { reads ≤ 50000 }
    ensures { result ≡ judged reads section.now }
{
    if reads == 0 {
        return judge_empty(section);
    }
    if section.len() < 4 {
        return None;
    }
    let count = u32_at(section, 0) as usize;
    if table_invalid(section, count) {
        return None;
    }
    let mut room = [NO_COLUMN; MAX_COLUMNS];
    let columns = &mut room[..count];
    first_places(section, columns);
    judge_rows(section, reads, columns)
}

// Writes the names of a section that is judged one after the other to the start of `names`, and the
// end of each to `ends`.
pub fn put_names(section: &[u8], reads: usize, names: &mut [u8], ends: &mut [u32])
    requires section_value { (names_invalid reads section.now ≡ false) × (reads ≤ 50000) }
    requires section_in_bounds { (length (flatten (names_read reads section.now)) ≤ length names.old)
        × (reads ≤ length ends.old) }
    ensures { (names.new
        ≡ pasted names.old 0 (flatten (names_read reads section.now)))
        × (ends.new ≡ pasted ends.old 0
        (places_from 0 (map length (names_read reads section.now)))) }
{
    if reads == 0 {
        return;
    }
    let count = u32_at(section, 0) as usize;
    let mut room = [NO_COLUMN; MAX_COLUMNS];
    let columns = &mut room[..count];
    first_places(section, columns);
    put_rows(section, reads, columns, names, ends);
}

// ---- Judging

// No reads means an empty section.
fn judge_empty(section: &[u8]) -> Option<u64>
    ensures { result ≡ judged 0 section.now }
{
    if section.is_empty() {
        return Some(0);
    }
    None
}

// Judges all rows, and that each column ends where the next begins.
fn judge_rows(section: &[u8], reads: usize, columns: &mut [Column]) -> Option<u64>
    requires table_fits { TableFits section.now (length columns.old) }
    requires reads_bound { reads ≤ 50000 }
    ensures { result ≡ judged_from 0 reads section.now (length columns.old) true
        (cursors_of columns.old) }
{
    let mut sum: u64 = 0;
    for i in 0..reads {
        let size = judge_row(section, i == 0, columns)?;
        sum += size as u64;
    }
    if ends_wrong(section, columns) {
        return None;
    }
    Some(sum)
}

// Judges a row, token by token: the length of its name, or None where the row is wrong. The columns
// move on to the next row.
fn judge_row(section: &[u8], first: bool, columns: &mut [Column]) -> Option<usize>
    requires { 0 < length columns.old }
    ensures size { result ≡ row_size section.now first (cursors_of columns.old) }
    ensures bound { IfSome result (λ size. size ≤ 255) }
    ensures moved { IsSome result →
        cursors_of columns.new ≡ map (cursor_after section.now first) (cursors_of columns.old) }
{
    let mut digits = starts_digits(section, columns[0]);
    let mut size: usize = 0;
    for column in columns.iter_mut() {
        let token = judge_token(section, first, digits, column)?;
        if MAX_NAME - size < token {
            return None;
        }
        size += token;
        digits = !digits;
    }
    Some(size)
}

// ---- Writing

// Writes the names of all rows.
fn put_rows(
    section: &[u8],
    reads: usize,
    columns: &mut [Column],
    names: &mut [u8],
    ends: &mut [u32],
)
    requires reads_bound { reads ≤ 50000 }
    requires columns_value { rows_invalid reads section.now true (cursors_of columns.old) ≡ false }
    requires columns_in_bounds { (length (flatten (names_from reads section.now true
        (cursors_of columns.old))) ≤ length names.old)
        × (reads ≤ length ends.old) }
    ensures { (names.new ≡ pasted names.old 0
        (flatten (names_from reads section.now true (cursors_of columns.old))))
        × (ends.new ≡ pasted ends.old 0
        (places_from 0 (map length (names_from reads section.now true
        (cursors_of columns.old))))) }
{
    let mut at: usize = 0;
    for i in 0..reads {
        at = put_row(section, i == 0, columns, names, at);
        ends[i] = at as u32;
    }
}

// Writes the name of a row from `from` on; the answer is the place after it. The columns move on to
// the next row.
fn put_row(
    section: &[u8],
    first: bool,
    columns: &mut [Column],
    names: &mut [u8],
    from: usize,
) -> usize
    requires columns_value { any (token_invalid section.now first) (cursors_of columns.old)
        ≡ false }
    requires columns_in_bounds { from + length (flatten (row_at section.now first
        (cursors_of columns.old))) ≤ length names.old }
    ensures { RowPut section.now first (cursors_of columns.old) (cursors_of columns.new)
        names.old names.new from result }
{
    let mut at = from;
    for column in columns.iter_mut() {
        at = put_token(section, first, column, names, at);
    }
    at
}

// The columns of all names written row by row. The contract cites specs/WrittenNames.antt of
// tokens; each `requires` says that the names are not refused, and that there is room.
ghost use Rattle.std.specs.Prelude.{◌≡◌, ◌+◌, ◌≤◌, length};
ghost use mathlib.Core.List.{map, flat_map};
ghost use Rattle.base.specs.Paste.{pasted};
ghost use Rattle.base.specs.Place.{At};
ghost use Rattle.tokens.specs.Columns.{column_type, column_bytes};
ghost use Rattle.tokens.specs.WrittenNames.{names_lent, token_count, columns_for};
ghost use Rattle.names_writer.specs.Measured.{NamesFit};
ghost use Rattle.names_writer.specs.Arrived.{column_lengths};

use crate::parts::part_at;
use crate::pieces::{Cursor, put_typed_row};
use crate::table::put_starts;
use crate::tokeniser::split_name;

// Writes the columns from `start` on. `marks` is room for the ends of a name's tokens, and `cursors`
// for one cursor a column.
pub fn put_columns(
    names: &[u8],
    ends: &[u32],
    kinds: &[u8],
    sizes: &[usize],
    marks: &mut [u8],
    cursors: &mut [Cursor],
    out: &mut [u8],
    start: usize,
)
    requires names_fit { NamesFit names.now ends.now }
    requires marks_room { 255 ≤ length marks.old }
    requires columns { (length cursors.old ≡ token_count (names_lent names.now ends.now))
        × At kinds.now 0 (map column_type (columns_for (names_lent names.now ends.now)))
        × At sizes.now 0 (column_lengths (names_lent names.now ends.now)) }
    requires ends_in_bounds { start
        + length (flat_map column_bytes (columns_for (names_lent names.now ends.now)))
        ≤ length out.old }
    ensures { out.new ≡ pasted out.old start
        (flat_map column_bytes (columns_for (names_lent names.now ends.now))) }
{
    put_starts(sizes, start, cursors);
    for i in 0..ends.len() {
        let name = part_at(names, ends, i);
        split_name(name, marks);
        put_typed_row(name, marks, kinds, cursors, out);
    }
}

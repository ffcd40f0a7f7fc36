// The columns of all names measured: their types and sizes. The contracts cite
// specs/Measured.antt; each `requires` says that the names are not refused, and that there is room.
ghost use Rattle.std.specs.Prelude.{◌≡◌, ◌+◌, ◌*◌, ◌≤◌, length};
ghost use Rattle.base.specs.Lists.{total};
ghost use Rattle.base.specs.Paste.{pasted};
ghost use Rattle.tokens.specs.WrittenNames.{names_lent};
ghost use Rattle.names_writer.specs.Columns.{SmallColumns, column_kinds, column_sizes};
ghost use Rattle.names_writer.specs.Measured.{NamesFit, Measured};

use crate::column::Column;
use crate::parts::part_at;
use crate::rows::add_row;
use crate::tokeniser::split_name;

// Measures the columns of all names, which come as they are of no name. `marks` is room for the ends
// of a name's tokens.
pub fn measure_rows(names: &[u8], ends: &[u32], marks: &mut [u8], columns: &mut [Column])
    requires names_fit { NamesFit names.now ends.now }
    requires marks_room { 255 ≤ length marks.old }
    requires none_yet { Measured (names_lent names.now ends.now) 0 columns.old }
    ensures { Measured (names_lent names.now ends.now) (length ends.now) columns.new }
{
    for i in 0..ends.len() {
        let name = part_at(names, ends, i);
        split_name(name, marks);
        add_row(name, marks, columns);
    }
}

// The types and the sizes of the columns, to the start of `kinds` and `sizes`; the answer is the
// length of the section.
pub fn put_sizes(columns: &[Column], reads: usize, kinds: &mut [u8], sizes: &mut [usize]) -> usize
    requires room { (length columns.now ≤ 255) × (length columns.now ≤ length kinds.old)
        × (length columns.now ≤ length sizes.old) }
    requires small { (reads ≤ 50000) × SmallColumns columns.now }
    ensures { (kinds.new ≡ pasted kinds.old 0 (column_kinds columns.now))
        × (sizes.new ≡ pasted sizes.old 0 (column_sizes columns.now reads))
        × (result ≡ 4 + 9 * length columns.now + total (column_sizes columns.now reads)) }
{
    let mut sum = 4 + 9 * columns.len();
    for (k, column) in columns.iter().enumerate() {
        let size = column.size_of(reads);
        kinds[k] = u8::from(column.kind);
        sizes[k] = size;
        sum += size;
    }
    sum
}

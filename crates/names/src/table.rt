// The table before the columns, and where each begins and ends. The contracts cite
// specs/ColumnsAt.antt and specs/NamesAt.antt of tokens.
ghost use Rattle.std.specs.Prelude.{◌≡◌, not, ◌+◌, ◌*◌, ◌<◌, ◌≤◌, length, get_or, eqb};
ghost use Rattle.base.specs.Lists.{any, part, total};
ghost use Rattle.tokens.specs.ColumnsAt.{
  kind_invalid,
  table_invalid,
  table_end,
  column_sizes,
  first_cursors,
};
ghost use Rattle.tokens.specs.NamesAt.{ends_wrong};
ghost use Rattle.names.specs.Cursors.{cursors_of, TableFits};

use crate::column::{Column, Kind};
use integers::u64_at;

// The most columns: no name has more bytes.
pub const MAX_COLUMNS: usize = 255;

// Whether the table is wrong.
pub fn table_invalid(section: &[u8], count: usize) -> bool
    requires { 4 ≤ length section.now }
    ensures { result ≡ table_invalid section.now count }
{
    count == 0
        || MAX_COLUMNS < count
        || section.len() < 4 + 9 * count
        || kinds_invalid(section, count)
        || sizes_wrong(section, count)
}

// Whether a type is refused.
fn kinds_invalid(section: &[u8], count: usize) -> bool
    requires { 4 + count ≤ length section.now }
    ensures { result ≡ any kind_invalid (part section.now 4 count) }
{
    for byte in &section[4..4 + count] {
        if Kind::of(*byte).is_none() {
            return true;
        }
    }
    false
}

// Whether the columns do not fill the section exactly.
fn sizes_wrong(section: &[u8], count: usize) -> bool
    requires { table_end count ≤ length section.now }
    ensures { result ≡ not (eqb
        (table_end count + total (column_sizes section.now count))
        (length section.now)) }
{
    let mut left = section.len() - 4 - 9 * count;
    for k in 0..count {
        let size = size_of(section, count, k);
        if left < size {
            return true;
        }
        left -= size;
    }
    left != 0
}

// The size of column k.
fn size_of(section: &[u8], count: usize, k: usize) -> usize
    requires { (table_end count ≤ length section.now) × (k < count) }
    ensures { result ≡ get_or (column_sizes section.now count) k 0 }
{
    u64_at(section, 4 + count + 8 * k) as usize
}

// Puts each column at its start.
pub fn first_places(section: &[u8], columns: &mut [Column])
    requires { TableFits section.now (length columns.old) }
    ensures { cursors_of columns.new ≡ first_cursors section.now (length columns.old) }
{
    let count = columns.len();
    let mut place = 4 + 9 * count;
    for (k, column) in columns.iter_mut().enumerate() {
        let kind = Kind::of(section[4 + k]).unwrap();
        *column = Column {
            place,
            value: 0,
            kind,
        };
        place += size_of(section, count, k);
    }
}

// Whether a column has not arrived at its end.
pub fn ends_wrong(section: &[u8], columns: &[Column]) -> bool
    requires { TableFits section.now (length columns.now) }
    ensures { result ≡ ends_wrong section.now (length columns.now) (cursors_of columns.now) }
{
    let count = columns.len();
    let mut end = 4 + 9 * count;
    for (k, column) in columns.iter().enumerate() {
        end += size_of(section, count, k);
        if column.place != end {
            return true;
        }
    }
    false
}

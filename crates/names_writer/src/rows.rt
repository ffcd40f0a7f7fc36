// The columns with one name more. The contract cites specs/Rows.antt and specs/Columns.antt.
ghost use Rattle.std.specs.Prelude.{length};
ghost use Rattle.names_writer.specs.Rows.{Marked};
ghost use Rattle.names_writer.specs.Columns.{SmallColumns, RowAdded};

use crate::column::Column;
use crate::parts::token_at;

// Adds to each column its token of a name, of which `marks` has the ends of the tokens.
pub fn add_row(name: &[u8], marks: &[u8], columns: &mut [Column])
    requires marked { Marked name.now marks.now (length columns.old) }
    requires small { SmallColumns columns.old }
    ensures { RowAdded name.now columns.old columns.new }
{
    for (k, column) in columns.iter_mut().enumerate() {
        *column = column.with(token_at(name, marks, k));
    }
}

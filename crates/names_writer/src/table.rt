// The table before the columns: the token count, the types and the sizes; and where the columns
// start. The contracts cite specs/Pieces.antt; each `requires` says that there is room.
ghost use Rattle.std.specs.Prelude.{◌≡◌, ◌+◌, ◌*◌, ◌^◌, ◌≤◌, ◌<◌, length, take};
ghost use mathlib.Core.List.{flat_map};
ghost use Rattle.base.specs.Lists.{total};
ghost use Rattle.base.specs.Numbers.{le_bytes};
ghost use Rattle.base.specs.Paste.{pasted};
ghost use Rattle.names_writer.specs.Pieces.{table_of, Started};

use crate::pieces::Cursor;
use integers::{put_u32, put_u64};

// Writes the token count, the types and the sizes. `count` stands beside the tables since they are
// lent whole, with room for 255: `put_section` asks for no slices of just the columns.
pub fn put_table(kinds: &[u8], sizes: &[usize], count: usize, out: &mut [u8], at: usize)
    requires count_bound { (count ≤ 255) × (count ≤ length kinds.now) × (count ≤ length sizes.now) }
    requires count_in_bounds { at + (4 + 9 * count) ≤ length out.old }
    ensures { out.new ≡ pasted out.old at
        (table_of kinds.now sizes.now count) }
{
    put_u32(out, at, count as u32);
    out[at + 4..at + 4 + count].copy_from_slice(&kinds[0..count]);
    put_lengths(sizes, count, out, at + 4 + count);
}

// Writes so many sizes, of 8 bytes each.
fn put_lengths(sizes: &[usize], count: usize, out: &mut [u8], at: usize)
    requires { (count ≤ length sizes.now) × (at + 8 * count ≤ length out.old) }
    ensures { out.new ≡ pasted out.old at
        (flat_map (le_bytes 8) (take count sizes.now)) }
{
    for k in 0..count {
        put_u64(out, at + 8 * k, sizes[k] as u64);
    }
}

// A cursor for each column, at its start; the first starts at `start`.
pub fn put_starts(sizes: &[usize], start: usize, cursors: &mut [Cursor])
    requires sizes_room { length cursors.old ≤ length sizes.now }
    requires sizes_bound { start + total (take (length cursors.old) sizes.now) < 2 ^ 64 }
    ensures { Started start sizes.now cursors.new }
{
    let mut place = start;
    for (k, cursor) in cursors.iter_mut().enumerate() {
        *cursor = Cursor { last: None, place };
        place += sizes[k];
    }
}

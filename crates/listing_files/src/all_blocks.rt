// The blocks of a file, one a turn.
ghost use Rattle.std.specs.Prelude.{◌≤◌, length};
ghost use Rattle.lines.specs.Listing.{text_room};

use crate::Fault;
use crate::windows::next_window;
use lines::turns::{ENDS_LENT, LETTERS_LENT, NAME_BYTES_LENT, NAME_ENDS_LENT, list_left};
use std::io::Read;

// What is lent to each block: the letters and the ends of its reads, and the bytes and the ends of
// their names.
#[derive(Drop)]
pub struct Lent {
    pub letters: [u8; LETTERS_LENT],
    pub ends: [u32; ENDS_LENT],
    pub names: [u8; NAME_BYTES_LENT],
    pub name_ends: [u32; NAME_ENDS_LENT],
}

// Lists an opened file, of which so many bytes are read. Its blocks are counted in 64 bits, which
// no file uses up.
pub fn list_blocks<R: Print, F: Read>(
    rt: &R,
    file: &mut F,
    bases: u64,
    reference: &[u8],
    buffer: &mut [u8],
    filled: usize,
    lent: &mut Lent,
    text: &mut [u8],
) -> Result<(), Fault>
    requires filled_in_bounds { filled ≤ length buffer.old }
    requires text_room_in_bounds { text_room ≤ length text.old }
{
    let mut at: usize = 0;
    let mut end = filled;
    for block in 0..u64::MAX {
        let window = next_window(file, buffer, at, end).map_err(Fault::Blocks)?;
        let left = &buffer[window.from..window.to];
        let turn = list_left(
            bases,
            reference,
            left,
            block,
            &mut lent.letters,
            &mut lent.ends,
            &mut lent.names,
            &mut lent.name_ends,
            text,
        );
        rt.write_all(&text[..turn.size]).map_err(Fault::Output)?;
        if turn.moved == 0 {
            return Ok(());
        }
        at = window.from + turn.moved;
        end = window.to;
    }
    Ok(())
}

// One block: it is decoded and judged, and both answers and the lent buffers are printed.
ghost use Rattle.std.specs.Prelude.{◌≡◌, length};

use crate::lines::{end_line, put_numbers, put_text, put_word};
use crate::outcomes::put_block_outcome;
use std::io;

// The most letters, name bytes and name ends that a case lends, and the ends that each lends.
const MAX_LETTERS: usize = 8;

const MAX_NAMES: usize = 64;

const MAX_ENDS: usize = 4;

const ENDS_LENT: usize = 2;

// What every lent byte and every lent end holds before the call.
pub const UNTOUCHED_BYTE: u8 = b'.';

pub const UNTOUCHED_END: u32 = 99;

// How many letters, name bytes and name ends are lent.
#[derive(Clone, Copy)]
pub struct Room {
    letters: usize,
    names: usize,
    name_ends: usize,
}

pub fn room_of(letters: usize, names: usize, name_ends: usize) -> Room {
    Room {
        letters,
        names,
        name_ends,
    }
}

// The line of a block under the reference ACGTACGTTGCA. No line where more is lent than there is.
pub fn show(rt: &impl Print, label: &[u8], input: &[u8], room: Room) -> io::Result<()> {
    let letter_room = room.letters;
    let name_room = room.names;
    let end_room = room.name_ends;
    if MAX_LETTERS < letter_room {
        return Ok(());
    }
    if MAX_NAMES < name_room {
        return Ok(());
    }
    if MAX_ENDS < end_room {
        return Ok(());
    }
    let mut letters = untouched_letters();
    let mut names = untouched_names();
    let mut name_ends = untouched_ends();
    show_lent(
        rt,
        label,
        input,
        &mut letters[..letter_room],
        &mut names[..name_room],
        &mut name_ends[..end_room],
    )
}

fn untouched_letters() -> [u8; MAX_LETTERS]
    ensures { 8 ≡ length result }
{
    [UNTOUCHED_BYTE; MAX_LETTERS]
}

fn untouched_names() -> [u8; MAX_NAMES]
    ensures { 64 ≡ length result }
{
    [UNTOUCHED_BYTE; MAX_NAMES]
}

fn untouched_ends() -> [u32; MAX_ENDS]
    ensures { 4 ≡ length result }
{
    [UNTOUCHED_END; MAX_ENDS]
}

fn show_lent(
    rt: &impl Print,
    label: &[u8],
    input: &[u8],
    letters: &mut [u8],
    names: &mut [u8],
    name_ends: &mut [u32],
) -> io::Result<()> {
    let mut ends = [UNTOUCHED_END; ENDS_LENT];
    put_text(rt, label)?;
    put_text(rt, b": decode")?;
    put_block_outcome(
        rt,
        ora::decode(
            12,
            &[0x1b, 0x1b, 0xe4],
            input,
            letters,
            &mut ends,
            names,
            name_ends,
        ),
    )?;
    put_text(rt, b", validate_block")?;
    put_block_outcome(rt, ora::validate_block(12, &[0x1b, 0x1b, 0xe4], input))?;
    put_buffers(rt, letters, &ends)?;
    put_buffers(rt, names, name_ends)?;
    end_line(rt)
}

// Bytes and ends, or that they hold what they held before.
pub fn put_buffers(rt: &impl Print, bytes: &[u8], ends: &[u32]) -> io::Result<()> {
    put_text(rt, b",")?;
    if bytes_untouched(bytes) && ends_untouched(ends) {
        return put_word(rt, b"untouched");
    }
    put_word(rt, bytes)?;
    put_numbers(rt, ends)
}

pub fn bytes_untouched(bytes: &[u8]) -> bool {
    bytes.iter().all(|byte| *byte == UNTOUCHED_BYTE)
}

fn ends_untouched(ends: &[u32]) -> bool {
    ends.iter().all(|end| *end == UNTOUCHED_END)
}

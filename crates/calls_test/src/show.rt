// One case: a block is decoded and judged, and both answers and the lent buffers are printed.
ghost use Rattle.std.specs.Prelude.{◌≡◌, length};

use crate::outcomes::put_block_outcome;
use case_text::print::{
    UNTOUCHED_BYTE, UNTOUCHED_END, bytes_untouched, end_line, put_buffers, put_text,
};
use std::io;

// The most letters and ends that a case lends.
const MAX_LETTERS: usize = 96;

const MAX_ENDS: usize = 24;

// The name bytes and name ends that every case lends.
pub const NAMES_LENT: usize = 4;

pub const NAME_ENDS_LENT: usize = 2;

// How many letters and ends are lent.
#[derive(Clone, Copy)]
pub struct Room {
    letters: usize,
    ends: usize,
}

pub fn room_of(letters: usize, ends: usize) -> Room {
    Room {
        letters: letters,
        ends: ends,
    }
}

// The line of a block under the reference ACGTACGTTGCA.
pub fn show(rt: &impl Print, label: &[u8], input: &[u8], room: Room) -> io::Result<()> {
    show_under(rt, label, 12, &[0x1b, 0x1b, 0xe4], input, room)
}

// The same under any reference. No line where more is lent than there is.
pub fn show_under(
    rt: &impl Print,
    label: &[u8],
    bases: u64,
    reference: &[u8],
    input: &[u8],
    room: Room,
) -> io::Result<()> {
    let letter_room = room.letters;
    let end_room = room.ends;
    if MAX_LETTERS < letter_room {
        return Ok(());
    }
    if MAX_ENDS < end_room {
        return Ok(());
    }
    let mut letters = untouched_letters();
    let mut ends = untouched_ends();
    show_lent(
        rt,
        label,
        bases,
        reference,
        input,
        &mut letters[..letter_room],
        &mut ends[..end_room],
    )
}

fn untouched_letters() -> [u8; MAX_LETTERS]
    ensures { 96 ≡ length result }
{
    [UNTOUCHED_BYTE; MAX_LETTERS]
}

fn untouched_ends() -> [u32; MAX_ENDS]
    ensures { 24 ≡ length result }
{
    [UNTOUCHED_END; MAX_ENDS]
}

fn show_lent(
    rt: &impl Print,
    label: &[u8],
    bases: u64,
    reference: &[u8],
    input: &[u8],
    letters: &mut [u8],
    ends: &mut [u32],
) -> io::Result<()> {
    let mut names = [UNTOUCHED_BYTE; NAMES_LENT];
    let mut name_ends = [UNTOUCHED_END; NAME_ENDS_LENT];
    put_text(rt, label)?;
    put_text(rt, b": decode")?;
    put_block_outcome(
        rt,
        ora::decode(
            bases,
            reference,
            input,
            letters,
            ends,
            &mut names,
            &mut name_ends,
        ),
    )?;
    put_text(rt, b", validate_block")?;
    put_block_outcome(rt, ora::validate_block(bases, reference, input))?;
    put_buffers(rt, letters, ends, 0, letters.len())?;
    put_names(rt, &names, &name_ends)?;
    end_line(rt)
}

// Names are stored in no block, so these stay: nothing is printed then.
fn put_names(rt: &impl Print, names: &[u8], name_ends: &[u32]) -> io::Result<()> {
    if bytes_untouched(names) && name_ends.iter().all(|end| *end == UNTOUCHED_END) {
        return Ok(());
    }
    put_text(rt, b", names touched")
}

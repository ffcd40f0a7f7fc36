// One turn of a listing: the block at the start of a window. The contracts cite specs/Listing.antt;
// every `requires` says what is lent.
ghost use Rattle.std.specs.Prelude.{◌≡◌, ◌+◌, ◌≤◌, length};
ghost use Rattle.base.specs.Paste.{pasted};
ghost use Rattle.lines.specs.Listing.{
  letters_lent,
  ends_lent,
  name_bytes_lent,
  name_ends_lent,
  text_room,
  reference_refused,
  window_of,
  turn_text,
  turn_move,
  next_text,
  next_move,
};

use crate::block_text::put_block;
use crate::{put_end_line, put_refused_line};
use integers::u64_at;
use reference::reference_size_wrong;

// 32 KiB: the most bytes of a reference file, and of a block.
pub const MAX_BYTES: usize = 32_768;

pub const LETTERS_LENT: usize = 32_768;

pub const ENDS_LENT: usize = 4_096;

pub const NAME_BYTES_LENT: usize = 32_768;

pub const NAME_ENDS_LENT: usize = 4_096;

// A block line of 170 bytes, the letters, and the end of each read's line.
pub const TEXT_ROOM: usize = 37_034;

// What a turn gave: the length of its text, and how far the window moves; 0 after a refusal.
#[derive(Clone, Copy)]
pub struct Turn {
    pub size: usize,
    pub moved: usize,
}

// Whether the reference file gets 1.
pub fn reference_refused(file: &[u8]) -> bool
    ensures { result ≡ reference_refused file.now }
{
    if file.len() < 8 {
        return true;
    }
    if MAX_BYTES < file.len() {
        return true;
    }
    reference_size_wrong(u64_at(file, 0), &file[8..])
}

// Decodes the block at the window's start and writes its text, or its refusal, at the start of
// `text`. `block` is its index in the file.
pub fn list_block(
    bases: u64,
    reference: &[u8],
    window: &[u8],
    block: u64,
    letters: &mut [u8],
    ends: &mut [u32],
    names: &mut [u8],
    name_ends: &mut [u32],
    text: &mut [u8],
) -> Turn
    requires letters_len { length letters.old ≡ letters_lent }
    requires ends_len { length ends.old ≡ ends_lent }
    requires names_len { length names.old ≡ name_bytes_lent }
    requires name_ends_len { length name_ends.old ≡ name_ends_lent }
    requires text_room_in_bounds { text_room ≤ length text.old }
    ensures { (text.new
        ≡ pasted text.old 0
        (turn_text bases reference.now window.now block))
        × (result.size ≡ length (turn_text bases reference.now window.now block))
        × (result.moved ≡ turn_move bases reference.now window.now)
        × (result.size ≤ length text.old)
        × (result.moved ≤ length window.now) }
{
    let id = ora::block_id(window);
    let outcome = ora::decode(bases, reference, window, letters, ends, names, name_ends);
    match outcome {
        Err(refused) => {
            let number = refused.refusal.number();
            let size = put_refused_line(number, block, refused.read, text, 0);
            Turn { size, moved: 0 }
        }
        Ok(listed) => {
            let reads = listed.counts.reads as usize;
            let size = put_block(id, listed.counts, letters, &ends[..reads], text);
            Turn {
                size,
                moved: listed.bytes as usize,
            }
        }
    }
}

// Lists what is left of a file after `block` blocks at the start of `text`: the next block, or the
// last line where nothing is left.
pub fn list_left(
    bases: u64,
    reference: &[u8],
    left: &[u8],
    block: u64,
    letters: &mut [u8],
    ends: &mut [u32],
    names: &mut [u8],
    name_ends: &mut [u32],
    text: &mut [u8],
) -> Turn
    requires letters_len { length letters.old ≡ letters_lent }
    requires ends_len { length ends.old ≡ ends_lent }
    requires names_len { length names.old ≡ name_bytes_lent }
    requires name_ends_len { length name_ends.old ≡ name_ends_lent }
    requires text_room_in_bounds { text_room ≤ length text.old }
    ensures { (text.new
        ≡ pasted text.old 0
        (next_text bases reference.now left.now block))
        × (result.size ≡ length (next_text bases reference.now left.now block))
        × (result.moved ≡ next_move bases reference.now left.now)
        × (result.size ≤ length text.old)
        × (result.moved ≤ length left.now) }
{
    if left.len() == 0 {
        let size = put_end_line(block, text, 0);
        return Turn { size, moved: 0 };
    }
    let window = window_of(left);
    list_block(
        bases, reference, window, block, letters, ends, names, name_ends, text,
    )
}

// The window of what is left of a file.
fn window_of(left: &[u8]) -> &[u8]
    ensures { result.now ≡ window_of left.now }
{
    if left.len() <= MAX_BYTES {
        return left;
    }
    &left[..MAX_BYTES]
}

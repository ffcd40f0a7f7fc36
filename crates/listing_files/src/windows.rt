// A file of any length in a buffer, from which one block after the other is read. The buffer holds
// more than one block may have, so that it is moved and filled only where a block might not be
// whole.
ghost use Rattle.std.specs.Prelude.{◌≡◌, ◌-◌, ◌≤◌, IfOk, length};
ghost use Rattle.base.specs.Lists.{part};
ghost use Rattle.base.specs.Paste.{pasted};

use lines::turns::MAX_BYTES;
use std::io;
use std::io::Read;

// What is left of the file, as far as it was read: from an index of the buffer up to another.
#[derive(Clone, Copy)]
pub struct Window {
    pub from: usize,
    pub to: usize,
}

// Reads into a buffer from index `from` on, until it is full or the file ends, and gives how far it
// is filled.
pub fn fill<F: Read>(file: &mut F, buffer: &mut [u8], from: usize) -> io::Result<usize>
    requires { from ≤ length buffer.old }
    ensures { IfOk result (λ end. (from ≤ end) × (end ≤ length buffer.old)) }
{
    let mut at = from;
    while at < buffer.len() {
        let count = file.read(&mut buffer[at..])?;
        if count == 0 {
            break;
        }
        at += count;
    }
    Ok(at)
}

// Moves the bytes from `at` up to `end` to the start of a buffer.
pub fn slide(buffer: &mut [u8], at: usize, end: usize)
    requires at_le_end { at ≤ end }
    requires end_in_bounds { end ≤ length buffer.old }
    ensures { buffer.new
        ≡ pasted buffer.old 0 (part buffer.old at (end - at)) }
{
    buffer.copy_within(at..end, 0);
}

// The window once the bytes before `at` are done with: as much as one block may have, or all that
// is left of the file.
pub fn next_window<F: Read>(
    file: &mut F,
    buffer: &mut [u8],
    at: usize,
    end: usize,
) -> io::Result<Window>
    requires at_le_end { at ≤ end }
    requires end_in_bounds { end ≤ length buffer.old }
    ensures { IfOk result (λ window. (window.from ≤ window.to) × (window.to ≤ length buffer.old)) }
{
    let left = end - at;
    if MAX_BYTES <= left {
        return Ok(Window { from: at, to: end });
    }
    slide(buffer, at, end);
    let filled = fill(file, buffer, left)?;
    Ok(Window {
        from: 0,
        to: filled,
    })
}

// The text of a block: its line and the lines of its reads, whose letters and ends decoding gave.
// The contracts cite specs/Lines.antt and specs/Cuts.antt; every `requires` asks for room, or that
// the ends cut the letters in order.
ghost use Rattle.std.specs.Prelude.{◌≡◌, ◌+◌, ◌≤◌, length};
ghost use Rattle.base.specs.Paste.{pasted};
ghost use Rattle.format.specs.Answered.{counted_of};
ghost use Rattle.lines.specs.Lines.{line_room, read_lines, block_text};
ghost use Rattle.lines.specs.Cuts.{reads_cut, EndsRise};

use crate::{put_block_line, put_read_line};
use dna::Counts;

// Writes a line for each read, from index `at` on, and gives the index after them.
pub fn put_reads(letters: &[u8], ends: &[u32], out: &mut [u8], at: usize) -> usize
    requires ends_rise { EndsRise 0 (length letters.now) ends.now }
    requires ends_in_bounds { at + length letters.now + length ends.now ≤ length out.old }
    ensures { (out.new
        ≡ pasted out.old at
        (read_lines (reads_cut 0 letters.now ends.now)))
        × (result
        ≡ at + length (read_lines (reads_cut 0 letters.now ends.now)))
        × (result ≤ length out.old) }
{
    let mut place = at;
    let mut start: usize = 0;
    for end in ends {
        let end = *end as usize;
        place = put_read_line(&letters[start..end], out, place);
        start = end;
    }
    place
}

// Writes the text of a block from the buffer's start on, and gives its length.
pub fn put_block(id: u64, counts: Counts, letters: &[u8], ends: &[u32], out: &mut [u8]) -> usize
    requires ends_rise { EndsRise 0 (length letters.now) ends.now }
    requires ends_in_bounds { line_room + length letters.now + length ends.now ≤ length out.old }
    ensures { (out.new
        ≡ pasted out.old 0
        (block_text id (counted_of counts) (reads_cut 0 letters.now ends.now)))
        × (result
        ≡ length
        (block_text id (counted_of counts) (reads_cut 0 letters.now ends.now)))
        × (result ≤ length out.old) }
{
    let next = put_block_line(id, counts, out, 0);
    put_reads(letters, ends, out, next)
}

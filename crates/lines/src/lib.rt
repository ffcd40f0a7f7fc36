// The lines of a listing, written into a lent buffer. The contracts cite specs/Lines.antt; every
// `requires` asks for room.
#![tactic(auto)]

pub mod block_text;
pub mod turns;

ghost use Rattle.std.specs.Prelude.{◌≡◌, ◌+◌, ◌≤◌, ◌++◌, length};
ghost use Rattle.base.specs.Paste.{pasted};
ghost use Rattle.format.specs.Answered.{counted_of};
ghost use Rattle.base.specs.Decimal.{decimal};
ghost use Rattle.lines.specs.Lines.{
  line_room,
  counts_room,
  counts_text,
  block_line,
  read_line,
  end_line,
  refused_line,
};

use dna::Counts;

// Writes a text from index `at` on, and gives the index after it.
pub fn put_text(text: &[u8], out: &mut [u8], at: usize) -> usize
    requires { at + length text.now ≤ length out.old }
    ensures { (out.new ≡ pasted out.old at text.now)
        × (result ≡ at + length text.now) }
{
    out[at..at + text.len()].copy_from_slice(text);
    at + text.len()
}

// Writes the decimal digits of a number.
pub fn put_decimal(number: u64, out: &mut [u8], at: usize) -> usize
    requires { at + 20 ≤ length out.old }
    ensures { (out.new ≡ pasted out.old at (decimal number))
        × (result ≡ at + length (decimal number)) × (result ≤ at + 20) }
{
    let mut digits = [0u8; 20];
    let count = io::decimal(number, &mut digits);
    put_text(&digits[..count], out, at)
}

// Writes a number after its name.
fn put_labelled(label: &[u8], number: u64, out: &mut [u8], at: usize) -> usize
    requires { at + length label.now + 20 ≤ length out.old }
    ensures { (out.new
        ≡ pasted out.old at (label.now ++ decimal number))
        × (result ≡ at + length (label.now ++ decimal number))
        × (result ≤ at + length label.now + 20) }
{
    let next = put_text(label, out, at);
    put_decimal(number, out, next)
}

// Writes a block line: b_id and the counts of the block.
pub fn put_block_line(id: u64, counts: Counts, out: &mut [u8], at: usize) -> usize
    requires { at + line_room ≤ length out.old }
    ensures { (out.new
        ≡ pasted out.old at (block_line id (counted_of counts)))
        × (result ≡ at + length (block_line id (counted_of counts))) × (result ≤ at + line_room) }
{
    let next = put_labelled(b"block ", id, out, at);
    let end = put_counts(counts, out, next);
    put_text(b"\n", out, end)
}

// Writes the counts of a block, each after its name.
fn put_counts(counts: Counts, out: &mut [u8], at: usize) -> usize
    requires { at + counts_room ≤ length out.old }
    ensures { (out.new
        ≡ pasted out.old at (counts_text (counted_of counts)))
        × (result ≡ at + length (counts_text (counted_of counts))) × (result ≤ at + counts_room) }
{
    let letters = put_labelled(b" reads ", counts.reads, out, at);
    let entries = put_labelled(b" letters ", counts.letters, out, letters);
    let differences = put_labelled(b" entries ", counts.entries, out, entries);
    let top = put_labelled(b" differences ", counts.differences, out, differences);
    put_labelled(b" top ", counts.top, out, top)
}

// Writes the letters of a read as a line.
pub fn put_read_line(letters: &[u8], out: &mut [u8], at: usize) -> usize
    requires { at + length letters.now + 1 ≤ length out.old }
    ensures { (out.new
        ≡ pasted out.old at (read_line letters.now))
        × (result ≡ at + length (read_line letters.now)) }
{
    let end = put_text(letters, out, at);
    put_text(b"\n", out, end)
}

// Writes the last line of a file that is accepted.
pub fn put_end_line(blocks: u64, out: &mut [u8], at: usize) -> usize
    requires { at + line_room ≤ length out.old }
    ensures { (out.new ≡ pasted out.old at (end_line blocks))
        × (result ≡ at + length (end_line blocks)) × (result ≤ at + line_room) }
{
    let end = put_labelled(b"end blocks ", blocks, out, at);
    put_text(b"\n", out, end)
}

// Writes the last line of a file that is refused.
pub fn put_refused_line(number: u32, block: u64, read: u64, out: &mut [u8], at: usize) -> usize
    requires { at + line_room ≤ length out.old }
    ensures { (out.new
        ≡ pasted out.old at (refused_line number block read))
        × (result ≡ at + length (refused_line number block read)) × (result ≤ at + line_room) }
{
    let second = put_labelled(b"refused ", number as u64, out, at);
    let third = put_labelled(b" ", block, out, second);
    let end = put_labelled(b" ", read, out, third);
    put_text(b"\n", out, end)
}

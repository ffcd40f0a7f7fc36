// Numbers in words of 16 bits, 32768 as often as it fits and one remainder: read lengths and N
// offsets are written so. The contracts cite specs/Varint16.antt of dna and specs/Paste.antt of
// base; each `requires` says that there is room.
#![tactic(auto)]

ghost use Rattle.std.specs.Prelude.{◌≡◌, ◌+◌, ◌≤◌, length};
ghost use Rattle.base.specs.Paste.{pasted};
ghost use Rattle.dna.specs.Varint16.{varint16_bytes};

use integers::put_u16;

// The word that says that another follows.
pub const WORD_ESCAPE: u32 = 32768;

// How many bytes a number takes.
pub fn words_length(number: u32) -> usize
    ensures { (result ≡ length (varint16_bytes number)) × (result ≤ 262144) }
{
    ((number / WORD_ESCAPE) as usize + 1) * 2
}

// Writes a number in words; the answer is the place after them. One or two words of 32768 need no
// branch: where there is one, the last word is written over the second.
pub fn put_words(number: u32, out: &mut [u8], at: usize) -> usize
    requires { at + length (varint16_bytes number) ≤ length out.old }
    ensures { (out.new ≡ pasted out.old at (varint16_bytes number))
        × (result ≡ at + length (varint16_bytes number)) }
{
    if number < WORD_ESCAPE {
        put_u16(out, at, number as u16);
        return at + 2;
    }
    let escapes = (number / WORD_ESCAPE) as usize;
    if 2 < escapes {
        return put_many_words(number, out, at);
    }
    put_u16(out, at, WORD_ESCAPE as u16);
    put_u16(out, at + 2, WORD_ESCAPE as u16);
    put_u16(out, at + escapes * 2, (number % WORD_ESCAPE) as u16);
    at + escapes * 2 + 2
}

// Writes a number in any count of words.
fn put_many_words(number: u32, out: &mut [u8], at: usize) -> usize
    requires { at + length (varint16_bytes number) ≤ length out.old }
    ensures { (out.new ≡ pasted out.old at (varint16_bytes number))
        × (result ≡ at + length (varint16_bytes number)) }
{
    let escapes = (number / WORD_ESCAPE) as usize;
    for k in 0..escapes {
        put_u16(out, at + 2 * k, WORD_ESCAPE as u16);
    }
    put_u16(out, at + 2 * escapes, (number % WORD_ESCAPE) as u16);
    at + 2 * escapes + 2
}

// The reference: its size, its bases, and the ASCII letters of a stretch on either strand. The
// contracts cite dna/specs/Reference.antt; the tables of words are those of specs/Tables.antt, made
// once and lent to each call.
#![tactic(auto)]

ghost use Rattle.std.specs.Prelude.{◌≡◌, Bool, true, false, cond, ◌+◌, ◌-◌, ◌*◌, ◌/◌, ◌%◌, ◌<◌, ◌≤◌, ◌^◌, length, get_or};
ghost use Rattle.base.specs.Lists.{Below};
ghost use Rattle.base.specs.Paste.{pasted};
ghost use Rattle.dna.specs.Reference.{
  max_reference_bases,
  reference_size_wrong,
  reference_base,
  complement,
  strand_base,
  stretch_index,
  letter_of_code,
  stretch_letters,
};
ghost use Rattle.reference.specs.Stretch.{StretchFits, bases_byte};
ghost use Rattle.reference.specs.Tables.{byte_word, word_table};

use integers::{put_u32, put_u64, u32_at};
use packing::symbol;

// The most bases that a reference may have.
pub const MAX_REFERENCE_BASES: u64 = 4_294_967_295;

// Refusal 1: the byte count is not that of so many bases, or there are too many bases.
pub fn reference_size_wrong(bases: u64, reference: &[u8]) -> bool
    ensures { result ≡ reference_size_wrong bases reference.now }
{
    if MAX_REFERENCE_BASES < bases {
        return true;
    }
    let bytes = (bases + 3) / 4;
    reference.len() as u64 != bytes
}

// The base with an index of the reference.
pub fn base_at(reference: &[u8], index: usize) -> u8
    requires { index / 4 < length reference.now }
    ensures { result ≡ reference_base reference.now index }
{
    symbol::<2>(reference, index)
}

// The complement of a base.
pub fn complement_of(base: u8) -> u8
    requires { base < 4 }
    ensures { result ≡ complement base }
{
    3 - base
}

// The base that a strand shows at an index of the reference.
pub fn strand_base(reference: &[u8], forward: bool, index: usize) -> u8
    requires { index / 4 < length reference.now }
    ensures { result ≡ strand_base reference.now forward index }
{
    let base = base_at(reference, index);
    if forward {
        return base;
    }
    complement_of(base)
}

// The ASCII capital of a code: A, C, G, T, N, the first lowest in the constant.
pub fn letter_of_code(code: u8) -> u8
    requires { code < 5 }
    ensures { result ≡ letter_of_code code }
{
    ((0x4e_5447_4341u64 >> (8 * code)) % 256) as u8
}

// The tables of words of both strands, which a caller makes once and lends to each call.
#[derive(Drop)]
pub struct WordTables {
    pub forward: [u64; 256],
    pub reverse: [u64; 256],
    pub ghost forward_words: { forward ≡ word_table true },
    pub ghost reverse_words: { reverse ≡ word_table false },
}

impl WordTables {
    pub fn new() -> WordTables {
        WordTables {
            forward: word_table(true),
            reverse: word_table(false),
        }
    }

    // The table of a strand.
    pub fn of(&self, forward: bool) -> &[u64; 256]
        ensures { result.now ≡ word_table forward }
    {
        if forward {
            return &self.forward;
        }
        &self.reverse
    }

    // Writes the letters of a stretch as a strand prints them, from index `at` of the buffer on.
    pub fn put_stretch(
        &self,
        reference: &[u8],
        forward: bool,
        leftmost: usize,
        bases: usize,
        out: &mut [u8],
        at: usize,
    )
        requires { (StretchFits reference.now leftmost bases)
            × (at + bases ≤ length out.old) }
        ensures { out.new
            ≡ pasted out.old at
            (stretch_letters reference.now forward leftmost bases) }
    {
        if forward {
            put_strand::<true>(reference, leftmost, bases, self.of(true), out, at);
            return;
        }
        put_strand::<false>(reference, leftmost, bases, self.of(false), out, at);
    }
}

// The table of a strand.
pub fn word_table(forward: bool) -> [u64; 256]
    ensures { result ≡ word_table forward }
{
    let mut table = [0u64; 256];
    fill_words(forward, &mut table);
    table
}

// Fills a table of 256 words with those of a strand.
pub fn fill_words(forward: bool, table: &mut [u64])
    requires { length table.old ≡ 256 }
    ensures { table.new ≡ word_table forward }
{
    for (byte, word) in table.iter_mut().enumerate() {
        *word = u64::from(byte_word(forward, byte as u8));
    }
}

// Writes the letters of a stretch as a strand prints them, from index `at` of the buffer on.
pub fn put_stretch(
    reference: &[u8],
    forward: bool,
    leftmost: usize,
    bases: usize,
    forward_table: &[u64; 256],
    reverse_table: &[u64; 256],
    out: &mut [u8],
    at: usize,
)
    requires { (StretchFits reference.now leftmost bases)
        × (at + bases ≤ length out.old)
        × (forward_table.now ≡ word_table true)
        × (reverse_table.now ≡ word_table false) }
    ensures { out.new
        ≡ pasted out.old at
        (stretch_letters reference.now forward leftmost bases) }
{
    if forward {
        put_strand::<true>(reference, leftmost, bases, forward_table, out, at);
        return;
    }
    put_strand::<false>(reference, leftmost, bases, reverse_table, out, at);
}

// Writes the letters of a stretch on one strand: the first four, whole bytes after them, and the
// last eight over what stands. `table` is the strand's.
pub fn put_strand<const FORWARD: bool>(
    reference: &[u8],
    leftmost: usize,
    bases: usize,
    table: &[u64; 256],
    out: &mut [u8],
    at: usize,
)
    requires { (StretchFits reference.now leftmost bases)
        × (at + bases ≤ length out.old)
        × (table.now ≡ word_table FORWARD) }
    ensures { out.new
        ≡ pasted out.old at
        (stretch_letters reference.now FORWARD leftmost bases) }
{
    if bases < 8 {
        put_letters(reference, FORWARD, leftmost, bases, out, at);
        return;
    }
    let first = piece_leftmost(FORWARD, leftmost, bases, 0, 4);
    put_four(reference, first, table, out, at);
    let head = letters_before_byte(FORWARD, leftmost, bases);
    let pairs = (bases - head) / 8;
    let whole = piece_leftmost(FORWARD, leftmost, bases, head, 8 * pairs);
    put_pairs::<FORWARD>(reference, whole / 4, pairs, table, out, at + head);
    let tail = bases - 8;
    let third = piece_leftmost(FORWARD, leftmost, bases, tail, 4);
    put_four(reference, third, table, out, at + tail);
    let last = piece_leftmost(FORWARD, leftmost, bases, tail + 4, 4);
    put_four(reference, last, table, out, at + tail + 4);
}

// Writes the letters of pairs of whole bytes of the reference, the lowest of them `first`.
fn put_pairs<const FORWARD: bool>(
    reference: &[u8],
    first: usize,
    pairs: usize,
    table: &[u64; 256],
    out: &mut [u8],
    at: usize,
)
    requires { (first + 2 * pairs ≤ length reference.now)
        × (first + 2 * pairs ≤ max_reference_bases)
        × (at + 8 * pairs ≤ length out.old)
        × (table.now ≡ word_table FORWARD) }
    ensures { out.new
        ≡ pasted out.old at
        (stretch_letters reference.now FORWARD (4 * first) (8 * pairs)) }
{
    for k in 0..pairs {
        let one = stretch_index(FORWARD, first, 2 * pairs, 2 * k);
        let other = stretch_index(FORWARD, first, 2 * pairs, 2 * k + 1);
        let words = two_words(table, reference[one], reference[other]);
        put_u64(out, at + 8 * k, words);
    }
}

// Writes the letters of a stretch on the forward strand.
pub fn put_stretch_forward(
    reference: &[u8],
    leftmost: usize,
    bases: usize,
    table: &[u64; 256],
    out: &mut [u8],
    at: usize,
)
    requires { (StretchFits reference.now leftmost bases)
        × (at + bases ≤ length out.old)
        × (table.now ≡ word_table true) }
    ensures { out.new
        ≡ pasted out.old at
        (stretch_letters reference.now true leftmost bases) }
{
    put_strand::<true>(reference, leftmost, bases, table, out, at);
}

// Writes the letters of the four bases from an index on, on the strand whose table is lent.
fn put_four(reference: &[u8], index: usize, table: &[u64; 256], out: &mut [u8], at: usize)
    requires { (StretchFits reference.now index 4) × (at + 4 ≤ length out.old)
        × (Below (2 ^ 32) table.now) }
    ensures { (forward : Bool) → table.now ≡ word_table forward
        → out.new
        ≡ pasted out.old at
        (stretch_letters reference.now forward index 4) }
{
    put_u32(out, at, table[bases_byte(reference, index)] as u32);
}

// The eight letters of two bytes of the reference, as one number, by the table of a strand.
pub fn two_words(table: &[u64; 256], first: u8, second: u8) -> u64
    requires { Below (2 ^ 32) table.now }
    ensures { result ≡ get_or table.now first 0
        + 4294967296 * get_or table.now second 0 }
{
    table[usize::from(first)] + 4294967296 * table[usize::from(second)]
}

// The byte of the four bases from an index on: no branch, and no read past the last of them.
fn bases_byte(reference: &[u8], index: usize) -> usize
    requires { StretchFits reference.now index 4 }
    ensures { (result ≡ bases_byte reference.now index) × (result < 256) }
{
    let both = usize::from(reference[index / 4]) * 256 + usize::from(reference[(index + 3) / 4]);
    (both >> (8 - 2 * (index % 4))) % 256
}

// Writes the letters of a stretch one at a time, from index `at` of the buffer on.
fn put_letters(
    reference: &[u8],
    forward: bool,
    leftmost: usize,
    bases: usize,
    out: &mut [u8],
    at: usize,
)
    requires { (StretchFits reference.now leftmost bases) × (at + bases ≤ length out.old) }
    ensures { out.new
        ≡ pasted out.old at
        (stretch_letters reference.now forward leftmost bases) }
{
    for k in 0..bases {
        let index = stretch_index(forward, leftmost, bases, k);
        out[at + k] = letter_of_code(strand_base(reference, forward, index));
    }
}

// The reference index under letter k of a stretch.
pub fn stretch_index(forward: bool, leftmost: usize, bases: usize, k: usize) -> usize
    requires { (k < bases) × (leftmost + bases ≤ max_reference_bases) }
    ensures { result ≡ stretch_index forward leftmost bases k }
{
    if forward {
        return leftmost + k;
    }
    leftmost + (bases - 1 - k)
}

// The lowest reference index of the `count` letters of a stretch from letter k on.
fn piece_leftmost(forward: bool, leftmost: usize, bases: usize, k: usize, count: usize) -> usize
    requires { (k + count ≤ bases) × (leftmost + bases ≤ max_reference_bases) }
    ensures { result ≡ leftmost + cond forward k (bases - (k + count)) }
{
    if forward {
        return leftmost + k;
    }
    leftmost + (bases - (k + count))
}

// How many letters of a stretch come before the first whole byte of the reference.
fn letters_before_byte(forward: bool, leftmost: usize, bases: usize) -> usize
    requires { (4 ≤ bases) × (leftmost + bases ≤ max_reference_bases) }
    ensures { (result ≤ 4) × ((leftmost + cond forward result (bases - result)) % 4 ≡ 0) }
{
    if forward {
        return 4 - leftmost % 4;
    }
    (leftmost + bases) % 4
}

// The word of a byte of four bases: their letters, as a strand prints them.
fn byte_word(forward: bool, byte: u8) -> u32
    ensures { result ≡ byte_word forward byte }
{
    let one = [byte];
    let mut letters = [0u8; 4];
    put_letters(&one, forward, 0, 4, &mut letters, 0);
    u32_at(&letters, 0)
}

// The letters N of a read: how many they are, and its N list, the length and the bytes. The
// contracts cite specs/RuleRecord.antt of format and specs/Record.antt of dna; each `requires` says
// that the read is one that can be written, and that there is room.
#![tactic(auto)]

ghost use Rattle.std.specs.Prelude.{◌≡◌, ◌+◌, ◌-◌, ◌^◌, ◌≤◌, length, get_or};
ghost use Rattle.base.specs.Paste.{pasted};
ghost use Rattle.dna.specs.Record.{n_list_bytes};
ghost use Rattle.format.specs.RuleRecord.{n_offsets_of};
ghost use Rattle.letter_packing.specs.Read.{codes_of};
ghost use Rattle.n_lists.specs.NPlaces.{n_places, n_count, chunk_size, NCounted};

use integers::u64_at;
use varint16::{WORD_ESCAPE, put_words, words_length};

// The letter N.
const LETTER_N: u8 = 78;

// So many letters are counted in one byte.
const CHUNK_SIZE: usize = 192;

// ---- Counting

// How many letters N there are. There is no branch on a letter, and the compiler takes sixteen of a
// chunk at once.
pub fn count_n(read: &[u8]) -> usize
    ensures { result ≡ length (n_offsets_of (codes_of read.now)) }
{
    let mut count: usize = 0;
    for chunk in read.chunks(CHUNK_SIZE) {
        count += usize::from(count_chunk(chunk));
    }
    count
}

// How many letters N there are in a chunk.
fn count_chunk(chunk: &[u8]) -> u8
    requires { length chunk.now ≤ chunk_size }
    ensures { (result ≡ n_count chunk.now) × (result ≤ chunk_size) }
{
    let mut count: u8 = 0;
    for letter in chunk {
        count += u8::from(*letter == LETTER_N);
    }
    count
}

// ---- The list

// How many bytes the N list of a read with `count` letters N takes.
pub fn n_list_length(read: &[u8], count: usize) -> usize
    requires { NCounted read.now count }
    ensures { (result
        ≡ length (n_list_bytes (n_offsets_of (codes_of read.now))))
        × (result ≤ 2 ^ 23) }
{
    if read.len() <= WORD_ESCAPE as usize {
        return 1 + 2 * count;
    }
    long_list_length(read, count)
}

// The same for a read in which an offset can take more than one word.
fn long_list_length(read: &[u8], count: usize) -> usize
    requires { NCounted read.now count }
    ensures { (result
        ≡ length (n_list_bytes (n_offsets_of (codes_of read.now))))
        × (result ≤ 2 ^ 23) }
{
    let mut sum: usize = 1;
    let mut before: usize = 0;
    let mut i: usize = 0;
    for k in 0..count {
        let place = next_n(read, i);
        sum += words_length((place - before) as u32);
        before = place;
        i = place + 1;
    }
    sum
}

// Writes the N list of a read with `count` letters N; the answer is the place after it.
pub fn put_n_list(read: &[u8], count: usize, out: &mut [u8], at: usize) -> usize
    requires ncounted { NCounted read.now count }
    requires read_in_bounds { at + length (n_list_bytes (n_offsets_of (codes_of read.now)))
        ≤ length out.old }
    ensures { (out.new ≡ pasted out.old at
        (n_list_bytes (n_offsets_of (codes_of read.now))))
        × (result ≡ at + length (n_list_bytes (n_offsets_of (codes_of read.now)))) }
{
    out[at] = count as u8;
    let mut next = at + 1;
    let mut before: usize = 0;
    let mut i: usize = 0;
    for k in 0..count {
        let place = next_n(read, i);
        next = put_words((place - before) as u32, out, next);
        before = place;
        i = place + 1;
    }
    next
}

// The place of the first letter N from `from` on; the end of the read where there is none.
fn next_n(read: &[u8], from: usize) -> usize
    requires { from ≤ length read.now }
    ensures { (result ≡ get_or (n_places read.now from (length read.now)) 0 (length read.now))
        × (from ≤ result) × (result ≤ length read.now) }
{
    let start = skip_words(read, from);
    for i in start..read.len() {
        if read[i] == LETTER_N {
            return i;
        }
    }
    read.len()
}

// A place from `from` on before which there is no letter N: words of eight letters without one are
// passed over. Of the five letters N alone has the bit of 8.
fn skip_words(read: &[u8], from: usize) -> usize
    requires { from ≤ length read.now }
    ensures { (from ≤ result) × (result ≤ length read.now)
        × (n_places read.now from (length read.now)
        ≡ n_places read.now result (length read.now)) }
{
    let mut i = from;

    // A cursor: a word that has the bit ends it, or fewer than eight letters.
    while 8 <= read.len() - i {
        if u64_at(read, i) & 0x0808_0808_0808_0808 != 0 {
            return i;
        }
        i += 8;
    }
    i
}

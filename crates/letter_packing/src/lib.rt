// Letters in ASCII, packed: four of two bits a byte with N as A, or two of four bits. The contracts
// cite specs/Read.antt, and specs/Record.antt and specs/RuleRecord.antt of dna and format; each
// `requires` says that the read is one that can be written, and that there is room.
#![tactic(auto, unfolding(base::specs::Packed::packed_length))]

ghost use Rattle.std.specs.Prelude.{◌≡◌, true, ◌+◌, ◌-◌, ◌*◌, ◌/◌, ◌≤◌, ◌<◌, length, get_or};
ghost use Rattle.base.specs.Lists.{build, part, member};
ghost use Rattle.base.specs.Packed.{byte_of, packed_length, pack};
ghost use Rattle.base.specs.Paste.{pasted};
ghost use Rattle.dna.specs.Reference.{alphabet};
ghost use Rattle.dna.specs.Record.{packed_bytes};
ghost use Rattle.format.specs.RuleRecord.{padded, without_n};
ghost use Rattle.format.specs.RuleBlock.{code_of_letter};
ghost use Rattle.letter_packing.specs.Read.{ReadFits, codes_of, base_in, end_codes};

use integers::{u16_at, u32_at};
use packing::{byte, packed_length};

// ---- Four letters a byte

// Packs the ends of a read, `left` letters and `right` letters of it, from byte `at` on; the answer
// is the byte after them. Whole bytes of one end are made of four letters at once.
pub fn put_ends(read: &[u8], left: usize, right: usize, out: &mut [u8], at: usize) -> usize
    requires read_fits { (ReadFits read.now) × (left + right ≤ length read.now) }
    requires right_in_bounds { at + packed_length 4 (left + right) ≤ length out.old }
    ensures { (out.new ≡ pasted out.old at
        (packed_bytes 4 4 (padded 4 (end_codes left right (codes_of read.now)))))
        × (result ≡ at + packed_length 4 (left + right)) }
{
    let count = left + right;
    let end = at + packed_length::<2>(count);
    put_full_bytes(read, 0, left / 4, out, at);
    put_mixed_byte(read, left, right, left, out, at);
    put_right_bytes(read, left, right, out, at);
    put_mixed_byte(read, left, right, count, out, at);
    end
}

// Packs the whole bytes of the right end.
fn put_right_bytes(read: &[u8], left: usize, right: usize, out: &mut [u8], at: usize)
    requires read_fits { (ReadFits read.now) × (left + right ≤ length read.now) }
    requires right_in_bounds { at + packed_length 4 (left + right) ≤ length out.old }
    ensures { out.new ≡ pasted out.old (at + packed_length 4 left)
        (part (pack 4 4 (end_codes left right (codes_of read.now)))
        (packed_length 4 left) ((left + right) / 4 - packed_length 4 left)) }
{
    let count = left + right;
    let next = packed_length::<2>(left);
    if next < count / 4 {
        put_full_bytes(
            read,
            read.len() - count + 4 * next,
            count / 4 - next,
            out,
            at + next,
        );
    }
}

// Packs whole bytes of four letters.
fn put_full_bytes(read: &[u8], start: usize, count: usize, out: &mut [u8], at: usize)
    requires { (ReadFits read.now) × (start + 4 * count ≤ length read.now)
        × (at + count ≤ length out.old) }
    ensures { out.new ≡ pasted out.old at
        (build count (λ j. byte_of 4 4 (λ k. base_in read.now (start + 4 * j + k)))) }
{
    for j in 0..count {
        out[at + j] = full_byte(read, start + 4 * j);
    }
}

// The byte of the four letters from index i on, which are read as one word. Half of a letter xor a
// quarter of it ends in two bits that are its code: 0, 1, 2, 3 of A, C, G, T, and 0 of N.
fn full_byte(read: &[u8], i: usize) -> u8
    requires { (ReadFits read.now) × (i + 4 ≤ length read.now) }
    ensures { result ≡ byte_of 4 4 (λ k. base_in read.now (i + k)) }
{
    let word = u32_at(read, i);
    let codes = ((word / 2) ^ (word / 4)) & 0x0303_0303;
    ((codes * 64 + codes / 16 + codes / 16384 + codes / 16777216) % 256) as u8
}

// Packs the byte in which the first n letters of both ends stop, where they do not fill it.
fn put_mixed_byte(read: &[u8], left: usize, right: usize, n: usize, out: &mut [u8], at: usize)
    requires read_fits { (ReadFits read.now) × (left + right ≤ length read.now)
        × (n ≤ left + right) }
    requires n_in_bounds { at + packed_length 4 n ≤ length out.old }
    ensures { out.new ≡ pasted out.old (at + n / 4)
        (part (pack 4 4 (end_codes left right (codes_of read.now)))
        (n / 4) (packed_length 4 n - n / 4)) }
{
    if n % 4 != 0 {
        out[at + n / 4] = mixed_byte(read, left, right, n / 4 * 4);
    }
}

// The byte of four letters of both ends, from letter `first` of them on; past the last they are 0.
fn mixed_byte(read: &[u8], left: usize, right: usize, first: usize) -> u8
    requires { (ReadFits read.now) × (left + right ≤ length read.now)
        × (first < left + right) }
    ensures { result ≡ byte_of 4 4 (λ k.
        get_or (end_codes left right (codes_of read.now)) (first + k) 0) }
{
    byte::<2>(&[
        end_code(read, left, right, first),
        end_code(read, left, right, first + 1),
        end_code(read, left, right, first + 2),
        end_code(read, left, right, first + 3),
    ])
}

// The code of letter k of both ends; 0 past the last.
fn end_code(read: &[u8], left: usize, right: usize, k: usize) -> u8
    requires { (ReadFits read.now) × (left + right ≤ length read.now) }
    ensures { (result ≡ get_or (end_codes left right (codes_of read.now)) k 0)
        × (result < 4) }
{
    if left + right <= k {
        return 0;
    }
    if k < left {
        return base_of_letter(read[k]);
    }
    base_of_letter(read[read.len() - (left + right) + k])
}

// The code of a letter where it is packed in two bits.
fn base_of_letter(letter: u8) -> u8
    requires { member letter alphabet ≡ true }
    ensures { (result ≡ without_n (code_of_letter letter)) × (result < 4) }
{
    ((letter / 2) ^ (letter / 4)) % 4
}

// ---- Two letters a byte

// Packs the letters of a read, N with its own code, from byte `at` on; the answer is the byte after
// them.
pub fn put_pairs(read: &[u8], out: &mut [u8], at: usize) -> usize
    requires read_fits { ReadFits read.now }
    requires read_in_bounds { at + packed_length 2 (length read.now) ≤ length out.old }
    ensures { (out.new ≡ pasted out.old at
        (packed_bytes 16 2 (padded 2 (codes_of read.now))))
        × (result ≡ at + packed_length 2 (length read.now)) }
{
    let full = read.len() / 2;
    for k in 0..full {
        out[at + k] = pair_byte(read, 2 * k);
    }
    if read.len() % 2 != 0 {
        out[at + full] = code_of_letter(read[read.len() - 1]) * 16;
        return at + full + 1;
    }
    at + full
}

// The byte of the two letters from index i on.
fn pair_byte(read: &[u8], i: usize) -> u8
    requires { (ReadFits read.now) × (i + 2 ≤ length read.now) }
    ensures { result ≡ byte_of 16 2 (λ k. code_of_letter (get_or read.now (i + k) 0)) }
{
    let word = u16_at(read, i);
    let codes = ((word / 2) ^ ((word / 4) & 0x0303)) & 0x0707;
    ((codes * 16 + codes / 256) % 256) as u8
}

// The code of a letter: half of it xor the last two bits of its quarter ends in three bits that are
// 0 to 4 of A, C, G, T, N.
pub fn code_of_letter(letter: u8) -> u8
    requires { member letter alphabet ≡ true }
    ensures { (result ≡ code_of_letter letter) × (result < 5) }
{
    ((letter / 2) ^ (letter / 4 % 4)) % 8
}

// The next letter of a read that differs from the reference. Where the reference is at the boundary
// of a byte, eight letters are compared at once with two words of the strand's table.
ghost use Rattle.std.specs.Prelude.{◌≡◌, Bool, false, cond, ◌+◌, ◌-◌, ◌*◌, ◌%◌, ◌^◌, ◌≤◌, ◌<◌};
ghost use Rattle.std.specs.Prelude.{length, MatchOption};
ghost use Rattle.base.specs.Lists.{AllBytes};
ghost use Rattle.base.specs.Numbers.{le};
ghost use Rattle.reference.specs.Stretch.{StretchFits};
ghost use Rattle.reference.specs.Tables.{word_table};
ghost use Rattle.mismatches.specs.Entries.{stretch_base};

use integers::u64_at;
use reference::{letter_of_code, strand_base, stretch_index, two_words};

// The aligned letters of a read, and where they stand: on a strand, from the lowest index of the
// reference under them on. The table of words is the strand's.
#[derive(Clone, Copy)]
pub struct Aligned<'a> {
    pub letters: &'a [u8],
    pub reference: &'a [u8],
    pub forward: bool,
    pub leftmost: usize,
    pub table: &'a [u64; 256],
    ghost fits: { StretchFits reference.now leftmost (length letters.now) },
    ghost words: { table.now ≡ word_table forward },
}

impl<'a> Aligned<'a> {
    ghost use Rattle.mismatches.specs.Places.{NoneBetween, FirstOf};
    ghost use Rattle.mismatches.specs.Compared.{given_at, differs, lowest_under};

    // The first letter from `from` on that differs from the reference. A cursor: words of equal
    // letters are passed at once.
    pub fn next_difference(&self, from: usize) -> Option<usize>
        requires { from ≤ length self.now.letters.now }
        ensures { MatchOption result
            (NoneBetween (differs self.now) from (length self.now.letters.now))
            (FirstOf (differs self.now) from (length self.now.letters.now)) }
    {
        let mut place = from;
        while place < self.letters.len() {
            place = self.skip_equal(place);
            if place < self.letters.len() {
                if self.differs_at(place) {
                    return Some(place);
                }
                place += 1;
            }
        }
        None
    }

    // Passes over letters from `from` on that are as the reference gives them, eight at once, where
    // the reference is at the boundary of a byte: the first letter that is not passed.
    fn skip_equal(&self, from: usize) -> usize
        requires { from ≤ length self.now.letters.now }
        ensures { (result ≤ length self.now.letters.now)
            × (NoneBetween (differs self.now) from result) }
    {
        if self.letters.len() < from + 8 {
            from
        } else if self.forward {
            self.skip_words::<true>(from)
        } else {
            self.skip_words::<false>(from)
        }
    }

    // The same on a strand, where there are eight letters. Each strand has a loop of its own, with no
    // branch on it.
    fn skip_words<const FORWARD: bool>(&self, from: usize) -> usize
        requires { (from + 8 ≤ length self.now.letters.now) × (self.now.forward ≡ FORWARD) }
        ensures { (result ≤ length self.now.letters.now)
            × (NoneBetween (differs self.now) from result) }
    {
        if self.lowest_under::<FORWARD>(from) % 4 != 0 {
            return from;
        }
        let letters = self.letters;
        let reference = self.reference;
        let words = (letters.len() - from) / 8;
        for k in 0..words {
            let place = from + 8 * k;
            let first = self.lowest_under::<FORWARD>(place) / 4;
            let second = byte_after::<FORWARD>(first);
            let given = two_words(self.table, reference[first], reference[second]);
            if eight_letters(letters, place) != given {
                return place;
            }
        }
        from + 8 * words
    }

    // The lowest index of the reference under the four letters from `place` on.
    fn lowest_under<const FORWARD: bool>(&self, place: usize) -> usize
        requires { (place + 4 ≤ length self.now.letters.now) × (self.now.forward ≡ FORWARD) }
        ensures { result ≡ lowest_under self.now place }
    {
        if FORWARD {
            return self.leftmost + place;
        }
        self.leftmost + (self.letters.len() - place - 4)
    }

    // Whether a letter differs from the reference; a letter under N does not.
    fn differs_at(&self, place: usize) -> bool
        requires { place < length self.now.letters.now }
        ensures { result ≡ differs self.now place }
    {
        let letter = self.letters[place];
        if letter == b'N' {
            return false;
        }
        letter != letter_of_code(self.expected_code(place))
    }

    // What the reference gives at a letter.
    pub fn expected_code(&self, place: usize) -> u8
        requires { place < length self.now.letters.now }
        ensures { result ≡ given_at self.now place }
    {
        expected_code(
            self.reference,
            self.forward,
            self.leftmost,
            self.letters.len(),
            place,
        )
    }
}

// What the reference gives at a letter of a stretch of `aligned` letters.
pub fn expected_code(
    reference: &[u8],
    forward: bool,
    leftmost: usize,
    aligned: usize,
    place: usize,
) -> u8
    requires { (StretchFits reference.now leftmost aligned) × (place < aligned) }
    ensures { result ≡ stretch_base reference.now forward leftmost aligned place }
{
    let index = stretch_index(forward, leftmost, aligned, place);
    strand_base(reference, forward, index)
}

// The byte of the reference under the next four letters, after those that are under a whole byte.
fn byte_after<const FORWARD: bool>(byte: usize) -> usize
    requires { (byte < 2 ^ 62) × (FORWARD ≡ false → 0 < byte) }
    ensures { result ≡ cond FORWARD (byte + 1) (byte - 1) }
{
    if FORWARD {
        return byte + 1;
    }
    byte - 1
}

// The eight letters from `place` on as one number, each letter a byte of it.
fn eight_letters(letters: &[u8], place: usize) -> u64
    requires { place + 8 ≤ length letters.now }
    ensures { (result ≡ le 8 letters.now place) × (AllBytes letters.now) }
{
    u64_at(letters, place)
}

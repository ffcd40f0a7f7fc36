// The faults 1 and 30 to 33 of what is lent to the writer (specs/EncodeAnswer.antt of format).
ghost use Rattle.std.specs.Prelude.{◌≡◌, not, cond, ◌||◌, ◌∷◌, ◌-◌, length, get_or, eqb};
ghost use Rattle.base.specs.Lists.{any, member, steps_from};
ghost use Rattle.dna.specs.Refused.{number_of};
ghost use Rattle.dna.specs.Reference.{alphabet};
ghost use Rattle.dna.specs.Sizes.{length_invalid};
ghost use Rattle.dna_writer.specs.Lent.{lent_number, lent_reads};

use dna::refusals::Refusal;
use reference::reference_size_wrong;

// The most reads that a block may have.
const MAX_READS: usize = 50_000;

// The most letters that a read may have.
const MAX_READ_LENGTH: u32 = 100_000;

// The first of 1 and 30 to 33 that fits.
pub fn lent_fault(
    bases: u64,
    reference: &[u8],
    letters: &[u8],
    ends: &[u32],
    positions: &[u32],
    strands: &[u8],
    lefts: &[u8],
    rights: &[u8],
) -> Result<(), Refusal>
    ensures { number_of result ≡ lent_number bases reference.now
        (lent_reads letters.now ends.now positions.now
        strands.now lefts.now rights.now) }
{
    if reference_size_wrong(bases, reference) {
        return Err(Refusal::ReferenceSizeWrong);
    }
    let reads = ends.len();
    if MAX_READS < reads {
        return Err(Refusal::ReadCountTooLarge);
    }
    if candidate_count_wrong(
        reads,
        positions.len(),
        strands.len(),
        lefts.len(),
        rights.len(),
    ) {
        return Err(Refusal::CandidateCountWrong);
    }
    if read_ends_invalid(ends, letters.len()) {
        return Err(Refusal::ReadEndsInvalid);
    }
    if letter_invalid(letters) {
        return Err(Refusal::LetterInvalid);
    }
    Ok(())
}

// 31: one of four numbers is not the number of reads.
fn candidate_count_wrong(
    reads: usize,
    positions: usize,
    strands: usize,
    lefts: usize,
    rights: usize,
) -> bool
    ensures { result ≡ not (eqb positions reads)
        || (not (eqb strands reads) || (not (eqb lefts reads) || not (eqb rights reads))) }
{
    positions != reads || strands != reads || lefts != reads || rights != reads
}

// 32: the ends do not rise from 0 by 1 to 100,000, or the last is not the number of letters.
pub fn read_ends_invalid(ends: &[u32], letters: usize) -> bool
    ensures { result ≡ any length_invalid (steps_from 0 ends.now)
        || not (eqb (get_or (0 ∷ ends.now) (length ends.now) 0) letters) }
{
    let mut before: u32 = 0;
    for end in ends {
        if step_invalid(before, *end) {
            return true;
        }
        before = *end;
    }
    before as usize != letters
}

// Whether a read from one end to the next has no letter, or more than it may have.
fn step_invalid(before: u32, end: u32) -> bool
    ensures { result ≡ length_invalid (end - before) }
{
    end <= before || MAX_READ_LENGTH < end - before
}

// 33: a letter is not A, C, G, T or N. One statement a letter and no branch, so that sixteen are
// looked at at once.
pub fn letter_invalid(letters: &[u8]) -> bool
    ensures { result ≡ any (λ letter. not (member letter alphabet)) letters.now }
{
    let mut invalid: u8 = 0;
    for letter in letters {
        invalid = invalid.max(no_letter(*letter));
    }
    invalid != 0
}

// 0 where a letter is A, C, G, T or N, else 1.
fn no_letter(letter: u8) -> u8
    ensures { result ≡ cond (member letter alphabet) 0 1 }
{
    let t_or_n = u8::from(letter != b'T').min(u8::from(letter != b'N'));
    let g_or_later = u8::from(letter != b'G').min(t_or_n);
    let c_or_later = u8::from(letter != b'C').min(g_or_later);
    u8::from(letter != b'A').min(c_or_later)
}

// What is lent to the writer, once it has no fault.
ghost use Rattle.std.specs.Prelude.{◌≡◌};
ghost use Rattle.dna_writer.specs.Lent.{lent_number, lent_reads};

use choices::candidate::Candidate;
use reference::WordTables;

// A reference of so many bases, with the tables of its words; the letters of the reads, one read
// after another, and where each ends; and a candidate for each read, its numbers in four lists, as
// the C interface has them. What is lent earns none of 1 and 30 to 33.
#[derive(Clone, Copy)]
pub struct LentReads<'a> {
    pub bases: u64,
    pub reference: &'a [u8],
    pub tables: &'a WordTables,
    pub letters: &'a [u8],
    pub ends: &'a [u32],
    pub positions: &'a [u32],
    pub strands: &'a [u8],
    pub lefts: &'a [u8],
    pub rights: &'a [u8],
    ghost faultless: { lent_number bases reference.now
        (lent_reads letters.now ends.now positions.now strands.now lefts.now rights.now)
        ≡ 0 },
}

impl<'a> LentReads<'a> {
    ghost use Rattle.std.specs.Prelude.{◌<◌, length};
    ghost use Rattle.choices.specs.Choice.{rule_candidate};
    ghost use Rattle.dna_writer.specs.Section.{candidate_at};
    ghost use Rattle.dna_writer.specs.Reads.{input_of, start_of, read_of};

    // The letters of read i.
    pub fn read(&self, i: usize) -> &'a [u8]
        requires { i < length self.now.ends.now }
        ensures { result.now ≡ read_of self.now i }
    {
        &self.letters[self.start(i)..self.ends[i] as usize]
    }

    // Where read i starts: at the end of the one before, the first at 0.
    fn start(&self, i: usize) -> usize
        requires { i < length self.now.ends.now }
        ensures { result ≡ start_of self.now i }
    {
        if i == 0 {
            return 0;
        }
        self.ends[i - 1] as usize
    }

    // The candidate of read i.
    pub fn candidate(&self, i: usize) -> Candidate
        requires { i < length self.now.ends.now }
        ensures { rule_candidate result ≡ candidate_at (input_of self.now) i }
    {
        Candidate {
            position: self.positions[i],
            strand: self.strands[i],
            left: self.lefts[i],
            right: self.rights[i],
        }
    }
}

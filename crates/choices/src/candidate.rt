// A candidate: the place that is proposed for a read, and the record of a read there.
ghost use Rattle.std.specs.Prelude.{◌≡◌, true, false, List, ℕ, ◌+◌, ◌≤◌, ◌<◌, length, MatchOption};
ghost use Rattle.dna.specs.Sizes.{max_read_length};
ghost use Rattle.format.specs.RuleRecord.{stored_position};
ghost use Rattle.record_writer.specs.Chosen.{placement_of, aligned_record};
ghost use Rattle.choices.specs.Choice.{rule_candidate, place_fits, strand_named, strand_of};

use dna::{Placement, Record, Strand};

// The lowest index of the reference under the read, a strand, 1 forward and 2 reverse, and how many
// letters at each end of the read lie outside the place. The numbers are those that C lends, and any
// may be proposed.
#[derive(Clone, Copy)]
pub struct Candidate {
    pub position: u32,
    pub strand: u8,
    pub left: u8,
    pub right: u8,
}

impl Candidate {
    // The strand of the place, where a read of `size` letters fits it: there are letters between
    // the ends, and the stretch is inside the reference.
    pub fn strand_used(self, bases: u64, size: usize) -> Option<Strand>
        requires { size ≤ max_read_length }
        ensures { MatchOption result (place_fits bases size (rule_candidate self) ≡ false)
            (λ strand. (place_fits bases size (rule_candidate self) ≡ true)
            × (strand ≡ strand_of (rule_candidate self))) }
    {
        let strand = self.named_strand()?;
        let clipped = self.clipped();
        if size <= clipped {
            return None;
        }
        if bases < u64::from(self.position) + (size - clipped) as u64 {
            return None;
        }
        Some(strand)
    }

    // The strand that is meant; numbers other than 1 and 2 mean none.
    fn named_strand(self) -> Option<Strand>
        ensures { result ≡ strand_named self.strand }
    {
        if self.strand == 1 {
            return Some(Strand::Forward);
        }
        if self.strand == 2 {
            return Some(Strand::Reverse);
        }
        None
    }

    // How many letters lie outside the place.
    fn clipped(self) -> usize
        ensures { (result ≡ self.left + self.right) × (result < 512) }
    {
        usize::from(self.left) + usize::from(self.right)
    }

    // The record at the place of a read of `size` letters, with so many entries.
    pub fn record(self, size: usize, strand: Strand, entries: usize) -> Record
        requires { (self.left + self.right < size) × (size ≤ max_read_length)
            × (strand ≡ strand_of (rule_candidate self)) }
        ensures { (codes : List ℕ) → length codes ≡ size
            → result ≡ aligned_record codes (rule_candidate self) entries }
    {
        let placement = Placement {
            position: self.stored_position(size, strand),
            strand: strand,
            left: self.left,
            right: self.right,
        };
        if 0 < self.clipped() {
            return Record::Local(placement);
        }
        if entries == 0 {
            return Record::Perfect(placement);
        }
        Record::Global(placement)
    }

    // The position that is stored: the candidate's or, with ends on the reverse strand, the last of
    // the stretch (02, Ticket 2).
    fn stored_position(self, size: usize, strand: Strand) -> u64
        requires { (self.left + self.right < size) × (size ≤ max_read_length)
            × (strand ≡ strand_of (rule_candidate self)) }
        ensures { (codes : List ℕ) → length codes ≡ size
            → result ≡ stored_position codes (rule_candidate self) }
    {
        let lowest = u64::from(self.position);
        let clipped = self.clipped();
        if clipped == 0 {
            return lowest;
        }
        match strand {
            Strand::Forward => lowest,
            Strand::Reverse => lowest + (size - clipped - 1) as u64,
        }
    }
}

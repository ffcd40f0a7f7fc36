// The lengths of a block that is to be written, and its header and size section, which say them.
ghost use Rattle.std.specs.Prelude.{◌≡◌, cond};
ghost use Rattle.encoder.specs.Lengths.{LengthsKnown};

use header::table::TABLE_LENGTH;
use header::writing::{VaryingFields, put_header};
use lengths::write::put_sizes;

// Flag 0x8, and with it 0x1.
const FLAGS: u32 = 0x8;

const FLAGS_EQUAL: u32 = 0x9;

// Where the reads end, and whether there is a read and all are equally long; how many letters they
// have; and how many bytes the DNA, the names and the size section take.
#[derive(Clone, Copy)]
pub struct BlockLengths<'a> {
    pub ends: &'a [u32],
    pub equal: bool,
    pub letters: usize,
    pub dna: usize,
    pub named: usize,
    pub sizes: usize,
    ghost known: { LengthsKnown ends.now equal letters dna named sizes },
}

impl<'a> BlockLengths<'a> {
    ghost use Rattle.std.specs.Prelude.{List, ℕ, ◌+◌, ◌≤◌, length, get_or};
    ghost use Rattle.base.specs.Groups.{group_count};
    ghost use Rattle.base.specs.Lists.{steps_from};
    ghost use Rattle.base.specs.Paste.{pasted};
    ghost use Rattle.format.specs.Header.{table_length, header_bytes};
    ghost use Rattle.format.specs.RuleBlock.{written_sizes, written_fields, written_header};
    ghost use Rattle.header.specs.WrittenHeader.{fields_of};

    // Where the N section begins, after the header, the DNA, the names and the size section.
    pub fn n_start(&self) -> usize
        ensures { result ≡ table_length + self.now.dna + self.now.named + self.now.sizes }
    {
        TABLE_LENGTH + self.dna + self.named + self.sizes
    }

    // Writes the header, and the size section where the names end.
    pub fn put_front(&self, id: u64, time: u64, out: &mut [u8])
        requires { table_length + self.now.dna + self.now.named + self.now.sizes ≤ length out.old }
        ensures { (ns : List ℕ) → length ns ≡ group_count (length self.now.ends.now)
            → out.new ≡ pasted (pasted out.old 0
            (header_bytes (written_header id time self.now.dna self.now.named
            (written_sizes (steps_from 0 self.now.ends.now)) ns
            (steps_from 0 self.now.ends.now)))) (table_length + self.now.dna + self.now.named)
            (written_sizes (steps_from 0 self.now.ends.now)) }
    {
        put_header(out, self.varying_fields(id, time));
        self.put_size_section(out, TABLE_LENGTH + self.dna + self.named);
    }

    // Writes the size section from `at` on; there is none where all lengths are equal.
    fn put_size_section(&self, out: &mut [u8], at: usize)
        requires { at + length (written_sizes (steps_from 0 self.now.ends.now)) ≤ length out.old }
        ensures { out.new ≡ pasted out.old at (written_sizes (steps_from 0 self.now.ends.now)) }
    {
        if !self.equal {
            put_sizes(self.ends, out, at);
        }
    }

    // The fields of the header that vary.
    fn varying_fields(&self, id: u64, time: u64) -> VaryingFields
        ensures { (ns : List ℕ) → length ns ≡ group_count (length self.now.ends.now)
            → fields_of result ≡ written_fields id time self.now.dna self.now.named
            (written_sizes (steps_from 0 self.now.ends.now)) ns
            (steps_from 0 self.now.ends.now) }
    {
        VaryingFields {
            l_dna: self.dna as u32,
            l_names: self.named as u32,
            l_size: self.sizes as u32,
            l_n: self.ends.len().div_ceil(8) as u32,
            flags: flags(self.equal),
            l_read: self.same_length(),
            n_reads: self.ends.len() as u32,
            b_id: id,
            c_time: time,
            l_dna_raw: self.letters as u32,
        }
    }

    // The length of all reads, or 0 where they differ or there is none.
    fn same_length(&self) -> u32
        ensures { result
            ≡ cond self.now.equal (get_or (steps_from 0 self.now.ends.now) 0 0) 0 }
    {
        if self.equal {
            return self.ends[0];
        }
        0
    }
}

// Flag 0x1 where all lengths are equal.
fn flags(equal: bool) -> u32
    ensures { result ≡ cond equal 0x9 0x8 }
{
    if equal { FLAGS_EQUAL } else { FLAGS }
}

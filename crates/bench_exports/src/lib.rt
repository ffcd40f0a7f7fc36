// The writers of a stretch, the walk over the lengths and the writer of a size section under plain
// names, for the benchmark alone (rust/bench). A caller that is not Rattle owes what each
// `requires` says: the benchmark makes its tables by bench_fill_words, its stretches inside, and
// room by bench_sizes_length for at most 50,000 reads.
#![tactic(auto)]

ghost use Rattle.std.specs.Prelude.{◌≡◌, true, false, ◌+◌, ◌≤◌, length};
ghost use Rattle.base.specs.Numbers.{non_negative};
ghost use Rattle.base.specs.Paste.{pasted};
ghost use Rattle.dna.specs.Reference.{stretch_letters};
ghost use Rattle.dna.specs.Sizes.{size_section_bytes};
ghost use Rattle.format.specs.HeaderFaults.{max_reads};
ghost use Rattle.lengths.specs.Form.{stored_of};
ghost use Rattle.dna.specs.SizesAt.{lengths_given};
ghost use Rattle.lengths.specs.Given.{lengths_found, lengths_number};
ghost use Rattle.reference.specs.Stretch.{StretchFits};
ghost use Rattle.reference.specs.Tables.{word_table};

use lengths::lengths_fault;
use lengths::write::{put_sizes, sizes_length};
use reference::{fill_words, put_strand};

#[unsafe(no_mangle)]
pub extern "C" fn bench_fill_words(forward: bool, table: &mut [u64])
    requires { length table.old ≡ 256 }
    ensures { table.new ≡ word_table forward }
{
    fill_words(forward, table);
}

#[unsafe(no_mangle)]
pub extern "C" fn bench_put_stretch_forward(
    reference: &[u8],
    leftmost: usize,
    bases: usize,
    table: &[u64; 256],
    out: &mut [u8],
    at: usize,
)
    requires { (StretchFits reference.now leftmost bases) × (at + bases ≤ length out.old)
        × (table.now ≡ word_table true) }
    ensures { out.new ≡ pasted out.old at
        (stretch_letters reference.now true leftmost bases) }
{
    put_strand::<true>(reference, leftmost, bases, table, out, at);
}

#[unsafe(no_mangle)]
pub extern "C" fn bench_put_stretch_reverse(
    reference: &[u8],
    leftmost: usize,
    bases: usize,
    table: &[u64; 256],
    out: &mut [u8],
    at: usize,
)
    requires { (StretchFits reference.now leftmost bases) × (at + bases ≤ length out.old)
        × (table.now ≡ word_table false) }
    ensures { out.new ≡ pasted out.old at
        (stretch_letters reference.now false leftmost bases) }
{
    put_strand::<false>(reference, leftmost, bases, table, out, at);
}

#[unsafe(no_mangle)]
pub extern "C" fn bench_lengths_fault(
    section: &[u8],
    fixed: bool,
    each: i32,
    reads: u32,
    raw: u32,
) -> u32
    ensures { result ≡ lengths_number raw
        (lengths_found (lengths_given fixed (non_negative each) reads section.now)) }
{
    match lengths_fault(section, fixed, each, reads, raw) {
        Ok(()) => 0,
        Err(refusal) => refusal.number(),
    }
}

#[unsafe(no_mangle)]
pub extern "C" fn bench_sizes_length(ends: &[u32]) -> usize
    requires { length ends.now ≤ max_reads }
    ensures { result ≡ length (size_section_bytes (stored_of ends.now)) }
{
    sizes_length(ends)
}

#[unsafe(no_mangle)]
pub extern "C" fn bench_put_sizes(ends: &[u32], out: &mut [u8], at: usize) -> usize
    requires ends_len_bound { length ends.now ≤ max_reads }
    requires ends_in_bounds { at + length (size_section_bytes (stored_of ends.now)) ≤ length out.old }
    ensures { (out.new ≡ pasted out.old at
        (size_section_bytes (stored_of ends.now)))
        × (result ≡ at + length (size_section_bytes (stored_of ends.now))) }
{
    put_sizes(ends, out, at)
}

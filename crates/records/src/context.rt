// What is known of a read before its record. The bounds are those of the walk over the section: no
// sum wraps.
ghost use Rattle.std.specs.Prelude.{◌≤◌, ◌<◌, ◌^◌};
ghost use Rattle.dna.specs.Sizes.{max_read_length};

use crate::Bits;

// A read of `size` letters, the position before it, and how many bases the reference has.
#[derive(Clone, Copy)]
pub struct Context {
    pub bits: Bits,
    pub size: usize,
    pub previous: u64,
    pub bases: u64,
    pub ghost size_bounded: { size ≤ max_read_length },
    pub ghost previous_bounded: { previous < 2 ^ 32 },
    pub ghost bases_bounded: { bases < 2 ^ 32 },
}

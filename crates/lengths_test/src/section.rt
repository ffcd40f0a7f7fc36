// The ends of reads from their lengths, and the size section from the ends.
use header::faults::MAX_READS;
use lengths::write::{put_sizes, sizes_length};

// The end of each read, counted in letters: of as many reads as there is room for, and as 32 bits
// can count.
pub fn put_ends(sizes: &[u32], ends: &mut [u32]) {
    let mut sum: u32 = 0;
    for (end, size) in ends.iter_mut().zip(sizes) {
        let Some(next) = sum.checked_add(*size) else {
            return;
        };
        sum = next;
        *end = next;
    }
}

// The size section of the reads that have these ends, at the start of the buffer, and how many
// bytes it has; 0 and nothing written where there are too many reads or too little room.
pub fn write_sizes(ends: &[u32], out: &mut [u8]) -> usize {
    if MAX_READS < ends.len() {
        return 0;
    }
    if out.len() < sizes_length(ends) {
        return 0;
    }
    put_sizes(ends, out, 0)
}

// A block of 17 reads in three groups: all five kinds, both strands, N lists, and positions stored
// as steps from the read before, over groups and past raw reads. Its lengths are 5 4 3 4 4 5 4 6,
// 6 5 3 2 4 12 4 1 and 5; it has 121 + 91 + 22 + 3 bytes. By the rules for records the reads are:
//
//    0 raw                      GATTA
//    1 perfect, step 4, at 4    ACGT
//    2 raw4                     NAC
//    3 global, step 0, at 4     ACTT      1 entry, a difference
//    4 reverse perfect at 6     CAAC
//    5 local at 0               TACGA
//    6 perfect, step 8, at 8    TNCN
//    7 reverse local, up to 6   TCCTTG    1 entry, a difference
//    8 perfect, step 0, at 6    GTTGCA
//    9 raw                      GANTA
//   10 reverse, step 2, at 8    GCT       2 entries, one of them a filler
//   11 raw4                     CT
//   12 local, step 1, at 9      GCAN
//   13 reverse perfect at 0     TGCAACGTACGT
//   14 global, step 5, at 5     CGNT      1 entry, under the N
//   15 raw                      C
//   16 perfect, step 2, at 7    TTGCA
use crate::block::{BLOCK_CAPACITY, block_buffer, put_bytes_at, varied_reads, write_block};
use crate::show::{Room, room_of, show};
use case_text::print::part;
use std::io;

// The bytes of the DNA section: 44, 41 and 6 for the groups.
const DNA_LENGTH: usize = 91;

// The block with bytes after it and without its last byte; then with just enough room, and with too
// little of each.
pub fn run_groups(rt: &impl Print) -> io::Result<()> {
    run_input(rt, b"groups", 237)?;
    run_input(rt, b"groups and more bytes", BLOCK_CAPACITY)?;
    run_input(rt, b"groups cut", 236)?;
    run_room(rt, b"groups, room", room_of(77, 17))?;
    run_room(rt, b"22 letters", room_of(76, 17))?;
    run_room(rt, b"22 ends", room_of(77, 16))?;
    run_room(rt, b"22 no room", room_of(0, 0))
}

// The first so many bytes of the block and the zeros after it, with room to spare.
fn run_input(rt: &impl Print, label: &[u8], most: usize) -> io::Result<()> {
    let mut block = block_buffer();
    write_groups(&mut block);
    show(rt, label, part(&block, 0, most), room_of(80, 19))
}

// The block with this room.
fn run_room(rt: &impl Print, label: &[u8], room: Room) -> io::Result<()> {
    let mut block = block_buffer();
    let length = write_groups(&mut block);
    show(rt, label, part(&block, 0, length), room)
}

// Writes the block; the answer is its length.
pub fn write_groups(out: &mut [u8]) -> usize {
    let mut dna = [0u8; DNA_LENGTH];
    put_first_group(&mut dna);
    put_second_group(&mut dna);
    put_bytes_at(b"\x80\x80\x00\x80\x02\x00", &mut dna, 85);
    write_block(
        varied_reads(17, 77),
        &dna,
        b"\x08\xf7\x05\x04\x03\x04\x05\x04\x06\x80\x7b\x05\x03\x02\x04\x0c\x00\x04\x01\x00\x80\x05",
        b"\x22\x4a\x00",
        out,
    )
}

// Reads 0 to 3, 4 and 5, 6 and 7.
fn put_first_group(dna: &mut [u8]) {
    put_bytes_at(
        b"\x4a\x56\x22\x52\x02\x8f\x00\x04\x00\x01\x40\x10\x0c\x00\x00\x0b",
        dna,
        0,
    );
    put_bytes_at(b"\x06\x00\x00\x00\x00\x00\x00\x00\x00\x01\x01\xc0", dna, 16);
    put_bytes_at(
        b"\x08\x00\x02\x01\x00\x02\x00\x08\x06\x00\x00\x00\x07\x02\x01\xd8",
        dna,
        28,
    );
}

// Reads 8 and 9, 10 to 12, 13 to 15.
fn put_second_group(dna: &mut [u8]) {
    put_bytes_at(b"\x84\x8a\x4a\xaa\x00\x00\x02\x8f\x00\x01\x02\x00", dna, 44);
    put_bytes_at(
        b"\x14\x02\x00\x02\x0b\x01\x13\x00\x01\x00\x00\x01\xc0\x01\x03\x00",
        dna,
        56,
    );
    put_bytes_at(
        b"\x00\x00\x00\x00\x0c\x05\x00\x08\x01\x02\x00\x02\x40",
        dna,
        72,
    );
}

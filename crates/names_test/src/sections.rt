// Names that are read, or not, and the room that they take. The good section holds r7 and r9: the
// strings r and r, and the number 7 with a step of 2.
use crate::block::{
    DNA_LENGTH, NAMES_FLAG, block_buffer, section_buffer, write_columns, write_none, write_two,
};
use crate::parts::first_bytes;
use crate::show::{Room, room_of, show};
use std::io;

const NO_FLAG: u32 = 0;

const BOTH_FLAGS: u32 = 0xc;

pub fn run_sections(rt: &impl Print) -> io::Result<()> {
    run_flags(rt)?;
    run_columns(rt)?;
    run_rooms(rt)?;
    run_orders(rt)?;
    run_no_reads(rt)
}

// Flag 0x8 alone decides. Names that are unread need no room and are not looked at.
fn run_flags(rt: &impl Print) -> io::Result<()> {
    run_good(rt, b"0 two names", NAMES_FLAG, DNA_LENGTH, full_room())?;
    run_good(rt, b"0 flag 0x4 too", BOTH_FLAGS, DNA_LENGTH, full_room())?;
    run_good(rt, b"0 no flag 0x8", NO_FLAG, DNA_LENGTH, full_room())?;
    run_good(
        rt,
        b"0 no flag and no room",
        NO_FLAG,
        DNA_LENGTH,
        room_of(8, 0, 0),
    )?;
    run_section(rt, b"0 no flag, one byte", NO_FLAG, b"\xff")
}

// Columns that the writer would not write: digits as strings, wider steps, and digits in one name
// where the other has none. The largest sum.
fn run_columns(rt: &impl Print) -> io::Result<()> {
    run_two(rt, b"0 strings", b"\x00\x00", b"r\0r\0", b"7\x0007\0")?;
    run_two(
        rt,
        b"0 steps of 16 bits",
        b"\x00\x03",
        b"r\0r\0",
        b"\x07\x00\x00\x00\x00\x00\x00\x00\x02\x00",
    )?;
    run_two(
        rt,
        b"0 steps of 32 bits",
        b"\x00\x05",
        b"r\0r\0",
        b"\x07\x00\x00\x00\x00\x00\x00\x00\x02\x00\x00\x00",
    )?;
    run_two(
        rt,
        b"0 digits and others",
        b"\x00\x00",
        b"7\0r\0",
        b"r\x007\0",
    )?;
    run_two(
        rt,
        b"0 sum of 18 nines",
        b"\x00\x04",
        b"r\0r\0",
        b"\xfe\xff\x63\xa7\xb3\xb6\xe0\x0d\x01",
    )
}

// 22: four bytes and two ends are wanted.
fn run_rooms(rt: &impl Print) -> io::Result<()> {
    run_good(
        rt,
        b"0 just the room",
        NAMES_FLAG,
        DNA_LENGTH,
        room_of(8, 4, 2),
    )?;
    run_good(
        rt,
        b"22 name bytes",
        NAMES_FLAG,
        DNA_LENGTH,
        room_of(8, 3, 2),
    )?;
    run_good(
        rt,
        b"22 name ends",
        NAMES_FLAG,
        DNA_LENGTH,
        room_of(8, 4, 1),
    )?;
    run_good(rt, b"22 letters", NAMES_FLAG, DNA_LENGTH, room_of(7, 4, 2))
}

// A DNA section with a byte left over earns 21, a names section of one byte 40, no room 22.
fn run_orders(rt: &impl Print) -> io::Result<()> {
    let left = DNA_LENGTH + 1;
    run_good(rt, b"21 before 22", NAMES_FLAG, left, room_of(0, 0, 0))?;
    run_block(rt, b"21 before 40", NAMES_FLAG, left, b"\x02", full_room())?;
    run_block(
        rt,
        b"40 before 22",
        NAMES_FLAG,
        DNA_LENGTH,
        b"\x02",
        room_of(0, 0, 0),
    )
}

// No reads: an empty section, and no other.
fn run_no_reads(rt: &impl Print) -> io::Result<()> {
    run_none(rt, b"0 no reads", b"")?;
    run_none(rt, b"40 no reads, a byte", b"\x00")?;
    run_none(rt, b"40 no reads, a token count", b"\x00\x00\x00\x00")
}

// ---- One case

// What is lent: more than two names want.
fn full_room() -> Room {
    room_of(8, 40, 3)
}

// A block of two reads with the good section.
fn run_good(rt: &impl Print, label: &[u8], flags: u32, dna: usize, room: Room) -> io::Result<()> {
    let mut section = section_buffer();
    let length = write_columns(
        b"\x00\x04",
        b"r\0r\0",
        b"\x07\x00\x00\x00\x00\x00\x00\x00\x02",
        &mut section,
    );
    run_block(rt, label, flags, dna, first_bytes(&section, length), room)
}

// A block of two reads with the names of two columns.
pub fn run_two(
    rt: &impl Print,
    label: &[u8],
    types: &[u8],
    first: &[u8],
    second: &[u8],
) -> io::Result<()> {
    let mut section = section_buffer();
    let length = write_columns(types, first, second, &mut section);
    run_section(rt, label, NAMES_FLAG, first_bytes(&section, length))
}

// A block of two reads with this names section.
pub fn run_section(rt: &impl Print, label: &[u8], flags: u32, section: &[u8]) -> io::Result<()> {
    run_block(rt, label, flags, DNA_LENGTH, section, full_room())
}

// The same with a DNA section of so many bytes, and with this room.
fn run_block(
    rt: &impl Print,
    label: &[u8],
    flags: u32,
    dna: usize,
    section: &[u8],
    room: Room,
) -> io::Result<()> {
    let mut block = block_buffer();
    let length = write_two(flags, dna, section, &mut block);
    show(rt, label, first_bytes(&block, length), room)
}

// A block of no reads with this names section.
fn run_none(rt: &impl Print, label: &[u8], section: &[u8]) -> io::Result<()> {
    let mut block = block_buffer();
    let length = write_none(section, &mut block);
    show(rt, label, first_bytes(&block, length), full_room())
}

// A read with as many entries and as many N as a record can have, 31 each, and clipped at both
// ends, on either strand. The reference is ACGT sixteen times. Of 40 letters 2 and 3 are clipped,
// TG and CAT; the 35 aligned ones lie on the bases 10 to 44, so that the position is 10 on the
// forward strand and 44 on the reverse. N stands on the letters 1 to 31, the entries on the letters
// 2 to 32. So one entry alone shows: C on letter 32, where the forward strand has A and the reverse
// strand C.
use crate::block::{block_buffer, equal_reads, put_bytes_at, write_block};
use crate::show::{room_of, show_under};
use case_text::print::part;
use std::io;

// The bytes of the DNA section.
const FULL_LENGTH: usize = 107;

pub fn run_full(rt: &impl Print) -> io::Result<()> {
    run_read(
        rt,
        b"31 entries and 31 N, forward",
        b"\x00\x80\x80\x00\xf8\x0a\x00\x00\x00",
    )?;
    run_read(
        rt,
        b"31 entries and 31 N, reverse",
        b"\x00\x00\x80\x00\xf8\x2c\x00\x00\x00",
    )
}

// A block of one read, with these group bytes, flag byte and position.
fn run_read(rt: &impl Print, label: &[u8], start: &[u8]) -> io::Result<()> {
    let mut dna = [0u8; FULL_LENGTH];
    put_fields(start, &mut dna);
    put_n_list(&mut dna);
    let mut block = block_buffer();
    let length = write_block(equal_reads(1, 40, 40), &dna, b"", b"\x80", &mut block);
    show_under(
        rt,
        label,
        64,
        &[0x1b; 16],
        part(&block, 0, length),
        room_of(44, 2),
    )
}

// The group bytes, flag byte and position; the entries: T on the first aligned letter, then a
// letter further on each time A, C, G, T again and again; left, right and the clipped letters.
fn put_fields(start: &[u8], out: &mut [u8]) {
    put_bytes_at(start, out, 0);
    put_bytes_at(b"\x03", out, 9);
    let letters = b"\x04\x05\x06\x07\x04\x05\x06\x07\x04\x05\x06\x07\x04\x05\x06\x07";
    put_bytes_at(letters, out, 10);
    put_bytes_at(letters, out, 26);
    put_bytes_at(b"\x02\x03\xe4\xc0", out, 40);
}

// The N list: 31 positions, each 1 on.
fn put_n_list(out: &mut [u8]) {
    let eight = b"\x01\x00\x01\x00\x01\x00\x01\x00\x01\x00\x01\x00\x01\x00\x01\x00";
    put_bytes_at(b"\x1f", out, 44);
    put_bytes_at(eight, out, 45);
    put_bytes_at(eight, out, 61);
    put_bytes_at(eight, out, 77);
    put_bytes_at(eight, out, 93);
}

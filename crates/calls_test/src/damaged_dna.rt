// Blocks of ten reads whose second group is damaged, for each of 12 to 21; some are damaged twice
// and show which rule comes first. A name begins with the number that the table of refusals gives.
// The read is 8 for the group's bytes and for the first record, which is perfect, 9 for the second
// record, and 0 for 21.
use crate::block::{block_buffer, put_bytes_at};
use crate::damage::buffers;
use crate::show::show;
use crate::ten_reads::write_ten;
use case_text::print::part;
use std::io;

pub fn run_faults(rt: &impl Print) -> io::Result<()> {
    run_cut(rt)?;
    run_cut_record(rt)?;
    run_group_bits(rt)?;
    run_stray_bits(rt)?;
    run_flags(rt)?;
    run_places(rt)?;
    run_clips(rt)?;
    run_entries(rt)?;
    run_packed(rt)?;
    run_n_lists(rt)?;
    run_raw4_bits(rt)?;
    run_left_over(rt)
}

// 12: the section ends in the group's bytes, in read 8, and at the start of read 9.
fn run_cut(rt: &impl Print) -> io::Result<()> {
    run_four(rt, b"12 no group bytes", b"")?;
    run_four(rt, b"12 three group bytes", b"\xc0\xc0\x00")?;
    run_four(rt, b"12 cut step", b"\xc0\xc0\x00\x80\x07")?;
    run_four(rt, b"12 no flag byte", b"\x80\x80\x00\x80\x07\x00")?;
    run_four(rt, b"12 no position", b"\xc0\xc0\x00\x80\x07\x00")
}

// 12: it ends in read 9.
fn run_cut_record(rt: &impl Print) -> io::Result<()> {
    run_four(
        rt,
        b"12 cut position",
        b"\xc0\xc0\x00\x80\x07\x00\x04\x00\x00",
    )?;
    run_four(
        rt,
        b"12 cut entries",
        b"\x80\xc0\x00\x80\x07\x00\x14\x04\x00\x00\x00\x0b",
    )?;
    run_four(
        rt,
        b"12 clips of 510",
        b"\x80\xc0\x00\x80\x07\x00\x00\x04\x00\x00\x00\xff\xff",
    )?;
    run_four(
        rt,
        b"12 cut raw, stray bit",
        b"\x80\xc0\x00\x80\x07\x00\x02",
    )?;
    run_ns(
        rt,
        b"12 cut N list",
        b"\xc0\xc0\x40\x80\x07\x00\x04\x00\x00\x00\x01\x02",
    )
}

// 13: bits of reads that the group does not have; and 11, which comes after it.
fn run_group_bits(rt: &impl Print) -> io::Result<()> {
    run_four(
        rt,
        b"13 Perfect bit",
        b"\xe0\xc0\x00\x80\x07\x00\x04\x00\x00\x00",
    )?;
    run_four(
        rt,
        b"13 Forward bit",
        b"\xc0\xc1\x00\x80\x07\x00\x04\x00\x00\x00",
    )?;
    run_four(
        rt,
        b"13 with-N bit",
        b"\xc0\xc0\x20\x80\x07\x00\x04\x00\x00\x00",
    )?;
    run_four(
        rt,
        b"13 pos_t bit",
        b"\xc0\xc0\x00\x90\x07\x00\x04\x00\x00\x00",
    )?;
    run_four(
        rt,
        b"11 with-N byte",
        b"\xc0\xc0\x40\x80\x07\x00\x04\x00\x00\x00",
    )
}

// 13: bits that a raw kind has not.
fn run_stray_bits(rt: &impl Print) -> io::Result<()> {
    run_four(rt, b"13 raw, Forward", b"\x80\xc0\x00\x80\x07\x00\x02\x1b")?;
    run_four(rt, b"13 raw, pos_t", b"\x80\x80\x00\xc0\x07\x00\x02\x1b")?;
    run_four(
        rt,
        b"13 raw4, Forward",
        b"\x80\xc0\x00\x80\x07\x00\x01\x01\x23",
    )?;
    run_four(
        rt,
        b"13 raw4, pos_t",
        b"\x80\x80\x00\xc0\x07\x00\x01\x01\x23",
    )
}

// 14: two kinds, and counts; nothing has to follow the flag byte.
fn run_flags(rt: &impl Print) -> io::Result<()> {
    run_four(rt, b"14 global and raw", b"\x80\xc0\x00\x80\x07\x00\x0e")?;
    run_four(rt, b"14 raw and raw4", b"\x80\x80\x00\x80\x07\x00\x03\x1b")?;
    run_four(rt, b"14 all kinds", b"\x80\x80\x00\x80\x07\x00\x07")?;
    run_four(rt, b"14 global, no entry", b"\x80\xc0\x00\x80\x07\x00\x04")?;
    run_four(rt, b"14 raw, an entry", b"\x80\x80\x00\x80\x07\x00\x0a\x1b")?;
    run_four(
        rt,
        b"14 raw4, an entry",
        b"\x80\x80\x00\x80\x07\x00\x09\x01\x23",
    )
}

// 15: past the last base, by a position, a step from 8, and on the reverse strand; below 0, by a
// reverse local read; in read 8 too.
fn run_places(rt: &impl Print) -> io::Result<()> {
    run_four(
        rt,
        b"15 perfect",
        b"\xc0\xc0\x00\x80\x07\x00\x09\x00\x00\x00",
    )?;
    run_four(
        rt,
        b"15 reverse",
        b"\xc0\x80\x00\x80\x07\x00\x09\x00\x00\x00",
    )?;
    run_four(rt, b"15 step", b"\xc0\xc0\x00\xc0\x07\x00\x01\x00")?;
    run_four(
        rt,
        b"15 global",
        b"\x80\xc0\x00\x80\x07\x00\x0c\x09\x00\x00\x00\x03",
    )?;
    run_four(
        rt,
        b"15 local",
        b"\x80\xc0\x00\x80\x07\x00\x00\x0a\x00\x00\x00\x00\x01\x00",
    )?;
    run_four(
        rt,
        b"15 reverse local below 0",
        b"\x80\x80\x00\x80\x07\x00\x00\x01\x00\x00\x00\x00\x01\x00",
    )?;
    run_four(
        rt,
        b"15 position 2^32 - 1",
        b"\xc0\xc0\x00\x40\xff\xff\xff\xff\x01\x00",
    )
}

// 16, and before 15.
fn run_clips(rt: &impl Print) -> io::Result<()> {
    run_four(
        rt,
        b"16 clips of 0",
        b"\x80\xc0\x00\x80\x07\x00\x00\x04\x00\x00\x00\x00\x00",
    )?;
    run_four(
        rt,
        b"16 clips of the read",
        b"\x80\xc0\x00\x80\x07\x00\x00\x04\x00\x00\x00\x02\x02\x1b",
    )?;
    run_four(
        rt,
        b"16 before 15",
        b"\x80\xc0\x00\x80\x07\x00\x00\x0d\x00\x00\x00\x00\x00",
    )
}

// 17, and before 19.
fn run_entries(rt: &impl Print) -> io::Result<()> {
    run_four(
        rt,
        b"17 later offset 0",
        b"\x80\xc0\x00\x80\x07\x00\x14\x04\x00\x00\x00\x0b\x01",
    )?;
    run_four(
        rt,
        b"17 past the read",
        b"\x80\xc0\x00\x80\x07\x00\x0c\x04\x00\x00\x00\x13",
    )?;
    run_four(
        rt,
        b"17 on a clip",
        b"\x80\xc0\x00\x80\x07\x00\x08\x04\x00\x00\x00\x0b\x01\x01\xc0",
    )?;
    run_four(
        rt,
        b"17 before 19",
        b"\x80\xc0\x00\x80\x07\x00\x08\x04\x00\x00\x00\x0b\x01\x01\xc1",
    )
}

// 18 and 19. A read of 5 letters leaves room for padding.
fn run_packed(rt: &impl Print) -> io::Result<()> {
    run_four(rt, b"18 code 5", b"\x80\x80\x00\x80\x07\x00\x01\x01\x25")?;
    run_five(
        rt,
        b"18 before 19",
        b"\x80\x80\x00\x80\x06\x00\x01\x01\x2f\x01",
    )?;
    run_five(rt, b"19 raw", b"\x80\x80\x00\x80\x06\x00\x02\x8f\x01")?;
    run_five(rt, b"19 raw4", b"\x80\x80\x00\x80\x06\x00\x01\x01\x23\x01")?;
    run_four(
        rt,
        b"19 local",
        b"\x80\xc0\x00\x80\x07\x00\x00\x04\x00\x00\x00\x01\x01\xc1",
    )
}

// 20: the list of read 9, at position 4.
fn run_n_lists(rt: &impl Print) -> io::Result<()> {
    run_list(rt, b"20 no N", b"\x00")?;
    run_list(rt, b"20 32 Ns", b"\x20")?;
    run_list(rt, b"20 past the read", b"\x01\x04\x00")?;
    run_list(rt, b"20 later offset 0", b"\x02\x01\x00\x00\x00")?;
    run_list(rt, b"20 later past the read", b"\x02\x01\x00\x03\x00")?;
    run_list(rt, b"20 word 32769", b"\x01\x01\x80")?;
    run_list(rt, b"20 word 32768", b"\x01\x00\x80")
}

// 20: the bit of raw4.
fn run_raw4_bits(rt: &impl Print) -> io::Result<()> {
    run_ns(
        rt,
        b"20 raw4, no N",
        b"\x80\x80\x40\x80\x07\x00\x01\x01\x23",
    )?;
    run_four(
        rt,
        b"20 raw4, no bit",
        b"\x80\x80\x00\x80\x07\x00\x01\x01\x24",
    )
}

// 21.
fn run_left_over(rt: &impl Print) -> io::Result<()> {
    run_four(
        rt,
        b"21 a byte",
        b"\xc0\xc0\x00\x80\x07\x00\x04\x00\x00\x00\x00",
    )
}

// ---- One case

// Reads of 4 letters without an N.
fn run_four(rt: &impl Print, label: &[u8], second: &[u8]) -> io::Result<()> {
    run_second(rt, label, 4, second, b"\x00\x00")
}

// Reads of 5 letters.
fn run_five(rt: &impl Print, label: &[u8], second: &[u8]) -> io::Result<()> {
    run_second(rt, label, 5, second, b"\x00\x00")
}

// Reads of 4 letters, the last with an N.
fn run_ns(rt: &impl Print, label: &[u8], second: &[u8]) -> io::Result<()> {
    run_second(rt, label, 4, second, b"\x00\x40")
}

// A block with this second group.
fn run_second(
    rt: &impl Print,
    label: &[u8],
    size: u32,
    second: &[u8],
    ns: &[u8],
) -> io::Result<()> {
    let mut block = block_buffer();
    let length = write_ten(size, second, ns, &mut block);
    show(rt, label, part(&block, 0, length), buffers())
}

// A perfect read 9 with this N list.
fn run_list(rt: &impl Print, label: &[u8], list: &[u8]) -> io::Result<()> {
    let mut second = [0u8; 16];
    put_bytes_at(b"\xc0\xc0\x40\x80\x07\x00\x04\x00\x00\x00", &mut second, 0);
    put_bytes_at(list, &mut second, 10);
    if 6 < list.len() {
        return Ok(());
    }
    run_ns(rt, label, part(&second, 0, 10 + list.len()))
}

// Damaged records, by the rule that refuses them; some are damaged twice and show which rule comes
// first.
use crate::good::{bits, forward, none, only_n, perfect, perfect_n, perfect_step};
use crate::show::show;
use std::io;

// 12: the section ends too soon.
pub fn run_cut(rt: &impl Print) -> io::Result<()> {
    show(rt, b"cut position", b"\x04\x00\x00", perfect(), 4)?;
    show(rt, b"cut step", b"\x04", perfect_step(), 4)?;
    show(rt, b"no flag byte", b"", forward(), 4)?;
    show(
        rt,
        b"cut position of global",
        b"\x0c\x00\x00\x00",
        forward(),
        4,
    )?;
    show(rt, b"cut entries", b"\x0c\x00\x00\x00\x00", forward(), 4)?;
    show(rt, b"cut right", b"\x00\x00\x00\x00\x00\x01", forward(), 5)?;
    show(
        rt,
        b"cut ends",
        b"\x00\x00\x00\x00\x00\x01\x01",
        forward(),
        5,
    )?;
    show(rt, b"cut raw", b"\x02\x8f", none(), 5)?;
    show(rt, b"cut raw, stray bit", b"\x02\x8f", forward(), 5)?;
    show(rt, b"cut raw4", b"\x01\x40", only_n(), 3)?;
    show(rt, b"cut N count", b"\x00\x00\x00\x00", perfect_n(), 4)?;
    show(
        rt,
        b"cut N list",
        b"\x00\x00\x00\x00\x02\x01\x00",
        perfect_n(),
        4,
    )?;
    show(
        rt,
        b"cut N word",
        b"\x00\x00\x00\x00\x02\x01\x00\x02",
        perfect_n(),
        4,
    )
}

// 13 and 14.
pub fn run_flags(rt: &impl Print) -> io::Result<()> {
    show(rt, b"raw with Forward", b"\x02\x8f\x00", forward(), 5)?;
    show(
        rt,
        b"raw with pos_t",
        b"\x02\x8f\x00",
        bits(false, false, false, true),
        5,
    )?;
    show(
        rt,
        b"raw4 with Forward",
        b"\x01\x40\x10",
        bits(false, true, true, false),
        3,
    )?;
    show(
        rt,
        b"flag global and raw",
        b"\x0e\x00\x00\x00\x00\x0b",
        forward(),
        4,
    )?;
    show(rt, b"flag raw and raw4", b"\x03\x8f\x00", none(), 5)?;
    show(rt, b"flag 07", b"\x07", none(), 5)?;
    show(rt, b"global count 0", b"\x04\x00\x00\x00\x00", forward(), 4)?;
    show(rt, b"global count 0, cut", b"\x04", forward(), 4)?;
    show(rt, b"raw count 1", b"\x0a\x8f\x00", none(), 5)?;
    show(rt, b"raw4 count 1", b"\x09\x40\x10", only_n(), 3)
}

// 15 and 16.
pub fn run_places(rt: &impl Print) -> io::Result<()> {
    show(rt, b"perfect outside", b"\x00\x00\x00\x00", perfect(), 13)?;
    show(rt, b"step outside", b"\xff\xff", perfect_step(), 4)?;
    show(rt, b"far position", b"\xff\xff\xff\xff", perfect(), 4)?;
    show(
        rt,
        b"global outside",
        b"\x0c\x09\x00\x00\x00\x0b",
        forward(),
        4,
    )?;
    show(
        rt,
        b"local outside",
        b"\x00\x0a\x00\x00\x00\x01\x01\xc0",
        forward(),
        5,
    )?;
    show(
        rt,
        b"reverse local below 0",
        b"\x00\x01\x00\x00\x00\x01\x01\xc0",
        none(),
        5,
    )?;
    show(
        rt,
        b"reverse local outside",
        b"\x00\x0c\x00\x00\x00\x01\x01\xc0",
        none(),
        5,
    )?;
    show(
        rt,
        b"below 0, entry outside",
        b"\x08\x01\x00\x00\x00\x14\x01\x01\xc0",
        none(),
        5,
    )?;
    show(
        rt,
        b"clips of 0",
        b"\x00\x00\x00\x00\x00\x00\x00",
        forward(),
        5,
    )?;
    show(
        rt,
        b"clips of 0, outside",
        b"\x00\x0a\x00\x00\x00\x00\x00",
        forward(),
        5,
    )?;
    show(
        rt,
        b"clips of 0, below 0",
        b"\x00\x01\x00\x00\x00\x00\x00",
        none(),
        5,
    )?;
    show(
        rt,
        b"clips of the read",
        b"\x00\x00\x00\x00\x00\x04\x01\x00\x00",
        forward(),
        5,
    )
}

// 17.
pub fn run_entries(rt: &impl Print) -> io::Result<()> {
    show(
        rt,
        b"later offset 0",
        b"\x14\x00\x00\x00\x00\x0b\x01",
        forward(),
        4,
    )?;
    show(
        rt,
        b"entry outside",
        b"\x0c\x00\x00\x00\x00\x13",
        forward(),
        4,
    )?;
    show(
        rt,
        b"later entry outside",
        b"\x14\x00\x00\x00\x00\x0b\x0b",
        forward(),
        4,
    )?;
    show(
        rt,
        b"entry on an end",
        b"\x08\x00\x00\x00\x00\x0f\x01\x01\xc0",
        forward(),
        5,
    )?;
    show(
        rt,
        b"entry and padding",
        b"\x08\x00\x00\x00\x00\x0f\x01\x01\xc1",
        forward(),
        5,
    )
}

// 18 and 19.
pub fn run_packed(rt: &impl Print) -> io::Result<()> {
    show(rt, b"code 5", b"\x01\x45\x10", only_n(), 3)?;
    show(rt, b"code 15", b"\x01\x0f\x10", none(), 3)?;
    show(rt, b"code 5 and padding", b"\x01\x45\x11", only_n(), 3)?;
    show(
        rt,
        b"padding of ends",
        b"\x00\x00\x00\x00\x00\x01\x01\xc4",
        forward(),
        5,
    )?;
    show(rt, b"padding of raw", b"\x02\x8f\x01", none(), 5)?;
    show(rt, b"padding of raw4", b"\x01\x40\x11", only_n(), 3)?;
    show(rt, b"padding and raw4 bit", b"\x01\x40\x11", none(), 3)
}

// 20: the count, and the bit of raw4.
pub fn run_n_lists(rt: &impl Print) -> io::Result<()> {
    show(rt, b"N list of 0", b"\x00\x00\x00\x00\x00", perfect_n(), 4)?;
    show(rt, b"N list of 32", b"\x00\x00\x00\x00\x20", perfect_n(), 4)?;
    show(rt, b"raw4 bit, no N", b"\x01\x00\x10", only_n(), 3)?;
    show(rt, b"raw4 N, no bit", b"\x01\x40\x10", none(), 3)
}

// 20: the words.
pub fn run_n_words(rt: &impl Print) -> io::Result<()> {
    show(
        rt,
        b"N outside",
        b"\x00\x00\x00\x00\x01\x04\x00",
        perfect_n(),
        4,
    )?;
    show(
        rt,
        b"later N outside",
        b"\x00\x00\x00\x00\x02\x01\x00\x03\x00",
        perfect_n(),
        4,
    )?;
    show(
        rt,
        b"later N offset 0",
        b"\x00\x00\x00\x00\x02\x01\x00\x00\x00",
        perfect_n(),
        4,
    )?;
    show(
        rt,
        b"word 32769",
        b"\x00\x00\x00\x00\x01\x01\x80",
        perfect_n(),
        4,
    )?;
    show(
        rt,
        b"word 32768, cut",
        b"\x00\x00\x00\x00\x01\x00\x80",
        perfect_n(),
        4,
    )?;
    show(
        rt,
        b"raw N outside",
        b"\x02\x8f\x00\x01\x05\x00",
        only_n(),
        5,
    )
}

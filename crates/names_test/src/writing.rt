// One call of the writer: what it writes is decoded again.
ghost use Rattle.std.specs.Prelude.{◌≡◌, length};

use crate::lines::{end_line, put_bytes, put_number, put_text};
use crate::parts::{bytes_from, first_bytes};
use crate::show::{UNTOUCHED_BYTE, UNTOUCHED_END, bytes_untouched, put_buffers};
use dna::refusals::Refusal;
use header::sections::NAMES_SECTION;
use std::io;

// The most bytes that a block and its names take.
pub const MAX_BLOCK: usize = 640;

const MAX_NAMES: usize = 264;

// The types of the columns start after their count.
const TYPES_START: usize = 4;

// The line of a call for the reads ACGT and ACGT.
pub fn run_two(rt: &impl Print, label: &[u8], names: &[u8], name_ends: &[u32]) -> io::Result<()> {
    run_call(rt, label, b"ACGTACGT", names, name_ends, MAX_BLOCK)
}

// The same for these letters, and with this room. No line where more is lent than there is.
pub fn run_call(
    rt: &impl Print,
    label: &[u8],
    letters: &[u8],
    names: &[u8],
    name_ends: &[u32],
    room: usize,
) -> io::Result<()> {
    if MAX_BLOCK < room {
        return Ok(());
    }
    let mut out = untouched_block();
    put_call(
        rt,
        label,
        letters,
        &[4u32, 8u32],
        names,
        name_ends,
        &[0u32, 0u32],
        &[1u8, 1u8],
        &[0u8, 0u8],
        &mut out[..room],
    )
}

// The line of a call for any number of reads; as many letters are clipped left as right.
pub fn put_call(
    rt: &impl Print,
    label: &[u8],
    letters: &[u8],
    ends: &[u32],
    names: &[u8],
    name_ends: &[u32],
    positions: &[u32],
    strands: &[u8],
    clips: &[u8],
    out: &mut [u8],
) -> io::Result<()> {
    put_text(rt, label)?;
    match ora::encode(
        12,
        &[0x1b, 0x1b, 0xe4],
        letters,
        ends,
        names,
        name_ends,
        positions,
        strands,
        clips,
        clips,
        7,
        0,
        out,
    ) {
        Ok(bytes) => put_block(rt, bytes, out, names.len())?,
        Err(refusal) => put_refusal(rt, refusal, out)?,
    }
    end_line(rt)
}

pub fn untouched_block() -> [u8; MAX_BLOCK]
    ensures { 640 ≡ length result }
{
    [UNTOUCHED_BYTE; MAX_BLOCK]
}

// The block's length and the types of its columns, then its names.
fn put_block(rt: &impl Print, bytes: u64, out: &[u8], names: usize) -> io::Result<()> {
    put_text(rt, b": written")?;
    put_number(rt, bytes)?;
    put_text(rt, b", types")?;
    put_bytes(rt, types_of(ora::section(out, NAMES_SECTION)))?;
    put_names(rt, out, names)
}

// The types of fewer than 256 columns.
fn types_of(section: &[u8]) -> &[u8] {
    if section.len() < TYPES_START {
        return section;
    }
    let count = usize::from(section[0]);
    first_bytes(bytes_from(section, TYPES_START), count)
}

// The names that decode reads, with as many bytes lent as there are names, and an end more.
fn put_names(rt: &impl Print, out: &[u8], size: usize) -> io::Result<()> {
    if MAX_NAMES < size {
        return Ok(());
    }
    let mut names = untouched_names();
    read_names(rt, out, &mut names[..size])
}

fn untouched_names() -> [u8; MAX_NAMES]
    ensures { 264 ≡ length result }
{
    [UNTOUCHED_BYTE; MAX_NAMES]
}

fn read_names(rt: &impl Print, input: &[u8], names: &mut [u8]) -> io::Result<()> {
    let mut letters = [UNTOUCHED_BYTE; 8];
    let mut ends = [UNTOUCHED_END; 2];
    let mut name_ends = [UNTOUCHED_END; 3];
    match ora::decode(
        12,
        &[0x1b, 0x1b, 0xe4],
        input,
        &mut letters,
        &mut ends,
        names,
        &mut name_ends,
    ) {
        Ok(_) => put_buffers(rt, names, &name_ends),
        Err(refused) => {
            put_text(rt, b", refused")?;
            put_number(rt, u64::from(refused.refusal.number()))?;
            put_number(rt, refused.read)
        }
    }
}

fn put_refusal(rt: &impl Print, refusal: Refusal, out: &[u8]) -> io::Result<()> {
    put_text(rt, b": refused")?;
    put_number(rt, u64::from(refusal.number()))?;
    if bytes_untouched(out) {
        return put_text(rt, b", untouched");
    }
    put_text(rt, b", written to")
}

// One case: reads are encoded, and the answer and the buffer are printed.
use case_text::print::{end_line, part, put_bytes, put_number, put_text};
use dna::refusals::Refusal;
use std::io;

// What every lent byte holds before the call.
pub const UNTOUCHED: u8 = 0xee;

const DNA_SECTION: u64 = 0;

// The line of a written block: its length, its DNA section up to 16 bytes, and what decoding counts
// of it; or of a refusal, and whether the buffer holds what it held before.
pub fn show(
    rt: &impl Print,
    label: &[u8],
    bases: u64,
    reference: &[u8],
    letters: &[u8],
    ends: &[u32],
    names: &[u8],
    name_ends: &[u32],
    positions: &[u32],
    strands: &[u8],
    lefts: &[u8],
    rights: &[u8],
    out: &mut [u8],
) -> io::Result<()> {
    put_text(rt, label)?;
    match ora::encode(
        bases, reference, letters, ends, names, name_ends, positions, strands, lefts, rights, 7, 0,
        out,
    ) {
        Ok(bytes) => put_block(rt, bases, reference, bytes, out)?,
        Err(refusal) => put_refusal(rt, refusal, out)?,
    }
    end_line(rt)
}

fn put_block(
    rt: &impl Print,
    bases: u64,
    reference: &[u8],
    bytes: u64,
    out: &[u8],
) -> io::Result<()> {
    put_text(rt, b": written")?;
    put_number(rt, bytes)?;
    put_text(rt, b", dna")?;
    put_bytes(rt, part(ora::section(out, DNA_SECTION), 0, 16))?;
    put_text(rt, b", read back")?;
    match ora::validate_block(bases, reference, out) {
        Ok(block) => {
            put_number(rt, block.bytes)?;
            put_number(rt, block.counts.reads)?;
            put_number(rt, block.counts.letters)?;
            put_number(rt, block.counts.entries)?;
            put_number(rt, block.counts.differences)?;
            put_number(rt, block.counts.top)
        }
        Err(refused) => {
            put_text(rt, b" refused")?;
            put_number(rt, u64::from(refused.refusal.number()))?;
            put_number(rt, refused.read)
        }
    }
}

fn put_refusal(rt: &impl Print, refusal: Refusal, out: &[u8]) -> io::Result<()> {
    put_text(rt, b": refused")?;
    put_number(rt, u64::from(refusal.number()))?;
    if out.iter().all(|byte| *byte == UNTOUCHED) {
        return put_text(rt, b", untouched");
    }
    put_text(rt, b", written to")
}

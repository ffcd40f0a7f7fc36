// Cases of writing: a block encoded into a lent buffer.
use crate::case_files::Fault;
use crate::columns::{end_line, put_column, start_line};
use crate::outcomes::put_encode_outcome;
use cases::case_file::{
    CaseHeader, ends_part, lefts_part, letters_part, name_ends_part, names_part, positions_part,
    reference_part, rights_part, strands_part,
};
use cases::hash::hash_of;
use integers::u32_at;
use std::io;

// The most ends, name ends and positions that a case gives, and the most bytes that it lends.
const MAX_ENDS: usize = 50_001;

const MAX_NAME_ENDS: usize = 4_096;

const MAX_POSITIONS: usize = 4_096;

const MAX_BLOCK: usize = 16_640;

// What every lent byte holds before a call.
const UNTOUCHED_BYTE: u8 = 0xee;

// A block encoded, with the hash of the buffer after the call. Ends and name ends that are given but
// not stored are 0.
pub fn run_encode(
    rt: &impl Print,
    index: u32,
    bytes: &[u8],
    header: CaseHeader,
) -> Result<(), Fault> {
    let end_count = header.ends as usize;
    let name_end_count = header.name_ends as usize;
    let position_count = header.positions as usize;
    let room = header.block_lent as usize;
    if MAX_ENDS < end_count
        || MAX_NAME_ENDS < name_end_count
        || MAX_POSITIONS < position_count
        || MAX_BLOCK < room
    {
        return Err(Fault::BadFile);
    }
    let mut ends = [0u32; MAX_ENDS];
    let mut name_ends = [0u32; MAX_NAME_ENDS];
    let mut positions = [0u32; MAX_POSITIONS];
    let mut out = [UNTOUCHED_BYTE; MAX_BLOCK];
    fill_numbers(&mut ends, ends_part(bytes, header));
    fill_numbers(&mut name_ends, name_ends_part(bytes, header));
    fill_numbers(&mut positions, positions_part(bytes, header));
    encode_into(
        rt,
        index,
        bytes,
        header,
        &ends[..end_count],
        &name_ends[..name_end_count],
        &positions[..position_count],
        &mut out[..room],
    )?;
    Ok(())
}

// Writes the numbers that are stored in four bytes each to the start of a list.
fn fill_numbers(numbers: &mut [u32], bytes: &[u8]) {
    for (number, stored) in numbers.iter_mut().zip(bytes.chunks_exact(4)) {
        *number = u32_at(stored, 0);
    }
}

// The line of a block that is encoded into this buffer.
fn encode_into(
    rt: &impl Print,
    index: u32,
    bytes: &[u8],
    header: CaseHeader,
    ends: &[u32],
    name_ends: &[u32],
    positions: &[u32],
    out: &mut [u8],
) -> io::Result<()> {
    start_line(rt, index, b"encode")?;
    put_encode_outcome(
        rt,
        ora::encode(
            header.bases,
            reference_part(bytes, header),
            letters_part(bytes, header),
            ends,
            names_part(bytes, header),
            name_ends,
            positions,
            strands_part(bytes, header),
            lefts_part(bytes, header),
            rights_part(bytes, header),
            header.b_id,
            header.c_time,
            out,
        ),
    )?;
    put_column(rt, hash_of(out))?;
    end_line(rt)
}

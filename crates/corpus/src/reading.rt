// Cases of reading: a block judged, a block decoded into lent buffers, a file judged.
use crate::case_files::Fault;
use crate::columns::{end_line, put_column, start_line};
use crate::outcomes::{put_block_outcome, put_file_outcome};
use cases::case_file::{CaseHeader, input_part, reference_part};
use cases::hash::{HASH_START, hash_number, hash_of};
use std::io;

// The most letters, ends and name bytes that a case lends; there are no more name ends than ends.
const MAX_LETTERS: usize = 65_540;

const MAX_ENDS: usize = 4_096;

const MAX_NAMES: usize = 32_768;

// What every lent byte and every lent end holds before a call.
const UNTOUCHED_BYTE: u8 = 0xee;

const UNTOUCHED_END: u32 = 0xeeee_eeee;

// A block judged.
pub fn run_validate_block(
    rt: &impl Print,
    index: u32,
    bytes: &[u8],
    header: CaseHeader,
) -> io::Result<()> {
    start_line(rt, index, b"validate_block")?;
    let reference = reference_part(bytes, header);
    let input = input_part(bytes, header);
    put_block_outcome(rt, ora::validate_block(header.bases, reference, input))?;
    end_line(rt)
}

// A file judged.
pub fn run_validate(
    rt: &impl Print,
    index: u32,
    bytes: &[u8],
    header: CaseHeader,
) -> io::Result<()> {
    start_line(rt, index, b"validate")?;
    let reference = reference_part(bytes, header);
    let input = input_part(bytes, header);
    put_file_outcome(rt, ora::validate(header.bases, reference, input))?;
    end_line(rt)
}

// A block decoded, with the hashes of the four buffers after the call.
pub fn run_decode(
    rt: &impl Print,
    index: u32,
    bytes: &[u8],
    header: CaseHeader,
) -> Result<(), Fault> {
    let letter_room = header.letters_lent as usize;
    let end_room = header.ends_lent as usize;
    let name_room = header.names_lent as usize;
    let name_end_room = header.name_ends_lent as usize;
    if MAX_LETTERS < letter_room
        || MAX_ENDS < end_room
        || MAX_NAMES < name_room
        || MAX_ENDS < name_end_room
    {
        return Err(Fault::BadFile);
    }
    let mut letters = [UNTOUCHED_BYTE; MAX_LETTERS];
    let mut ends = [UNTOUCHED_END; MAX_ENDS];
    let mut names = [UNTOUCHED_BYTE; MAX_NAMES];
    let mut name_ends = [UNTOUCHED_END; MAX_ENDS];
    decode_into(
        rt,
        index,
        bytes,
        header,
        &mut letters[..letter_room],
        &mut ends[..end_room],
        &mut names[..name_room],
        &mut name_ends[..name_end_room],
    )?;
    Ok(())
}

// The line of a block that is decoded into these buffers.
fn decode_into(
    rt: &impl Print,
    index: u32,
    bytes: &[u8],
    header: CaseHeader,
    letters: &mut [u8],
    ends: &mut [u32],
    names: &mut [u8],
    name_ends: &mut [u32],
) -> io::Result<()> {
    start_line(rt, index, b"decode")?;
    put_block_outcome(
        rt,
        ora::decode(
            header.bases,
            reference_part(bytes, header),
            input_part(bytes, header),
            letters,
            ends,
            names,
            name_ends,
        ),
    )?;
    put_column(rt, hash_of(letters))?;
    put_column(rt, hash_numbers(ends))?;
    put_column(rt, hash_of(names))?;
    put_column(rt, hash_numbers(name_ends))?;
    end_line(rt)
}

// The hash of some numbers, four bytes each.
pub fn hash_numbers(numbers: &[u32]) -> u64 {
    numbers
        .iter()
        .fold(HASH_START, |hash, number| hash_number(hash, *number))
}

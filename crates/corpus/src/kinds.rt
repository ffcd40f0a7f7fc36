// The kinds of cases. Each has a module that runs one case and prints what it gives.
use crate::case_files::Fault;
use crate::read_lengths::run_lengths;
use crate::reading::{run_decode, run_validate, run_validate_block};
use crate::sections::run_sections;
use crate::writing::run_encode;
use cases::case_file::{CaseHeader, input_part};

// Each with its number in a case's header.
#[derive(Clone, Copy)]
enum Kind {
    Sections = 1,
    Lengths = 2,
    Decode = 3,
    ValidateBlock = 4,
    Validate = 5,
    Encode = 6,
}

impl TryFrom<u8> for Kind {
    type Error = Fault;

    fn try_from(number: u8) -> Result<Kind, Fault> {
        match number {
            1 => Ok(Kind::Sections),
            2 => Ok(Kind::Lengths),
            3 => Ok(Kind::Decode),
            4 => Ok(Kind::ValidateBlock),
            5 => Ok(Kind::Validate),
            6 => Ok(Kind::Encode),
            _ => Err(Fault::BadFile),
        }
    }
}

// Runs a case by its kind.
pub fn run_kind(
    rt: &impl Print,
    index: u32,
    bytes: &[u8],
    header: CaseHeader,
) -> Result<(), Fault> {
    let input = input_part(bytes, header);
    match Kind::try_from(header.kind)? {
        Kind::Sections => run_sections(rt, index, input)?,
        Kind::Lengths => run_lengths(rt, index, input)?,
        Kind::Decode => run_decode(rt, index, bytes, header)?,
        Kind::ValidateBlock => run_validate_block(rt, index, bytes, header)?,
        Kind::Validate => run_validate(rt, index, bytes, header)?,
        Kind::Encode => run_encode(rt, index, bytes, header)?,
    }
    Ok(())
}

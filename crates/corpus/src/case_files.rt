// A case file, read whole and walked front to back.
ghost use Rattle.std.specs.Prelude.{◌≤◌, IfOk, length};

use crate::columns::put_fault;
use crate::kinds::run_kind;
use cases::case_file::{FILE_HEADER_LENGTH, read_case, read_count};
use listing_files::windows::fill;
use std::io::Read;
use std::rt::Files;
use std::{fs, io};

// A case file is smaller.
const FILE_CAPACITY: usize = 262_144;

// Why the cases of a file were not all run.
#[derive(Debug, Drop)]
pub enum Fault {
    // It is no case file, or one of its cases is of no kind or lends more than there is.
    BadFile,
    // It could not be read, or what the calls give could not be written.
    Io(io::Error),
}

impl From<io::Error> for Fault {
    fn from(error: io::Error) -> Fault {
        Fault::Io(error)
    }
}

// Runs all cases of a file of the working directory.
pub fn run_file<R: Files + Print>(rt: &R, name: &[u8]) -> io::Result<()> {
    let Ok(path) = str::from_utf8(name) else {
        return put_fault(rt, name, b"cannot be opened");
    };
    let Ok(mut file) = fs::open(rt, path) else {
        return put_fault(rt, name, b"cannot be opened");
    };
    match run_opened(rt, &mut file) {
        Ok(()) => Ok(()),
        Err(Fault::BadFile) => put_fault(rt, name, b"bad case file"),
        Err(Fault::Io(error)) => Err(error),
    }
}

// Runs the cases of an opened file.
fn run_opened(rt: &impl Print, file: &mut impl Read) -> Result<(), Fault> {
    let mut bytes = [0u8; FILE_CAPACITY];
    let size = fill(file, &mut bytes, 0)?;
    if FILE_CAPACITY <= size {
        return Err(Fault::BadFile);
    }
    run_cases(rt, &bytes[..size])
}

// The same of the contents.
fn run_cases(rt: &impl Print, file: &[u8]) -> Result<(), Fault> {
    let Some(count) = read_count(file) else {
        return Err(Fault::BadFile);
    };
    let mut at = FILE_HEADER_LENGTH;
    for index in 0..count {
        let size = run_case(rt, index, &file[at..])?;
        at += size;
    }
    if at == file.len() {
        Ok(())
    } else {
        Err(Fault::BadFile)
    }
}

// Runs the case with which the bytes begin, and gives its length.
fn run_case(rt: &impl Print, index: u32, bytes: &[u8]) -> Result<usize, Fault>
    ensures { IfOk result (λ n. n ≤ length bytes.now) }
{
    let Some(header) = read_case(bytes) else {
        return Err(Fault::BadFile);
    };
    run_kind(rt, index, bytes, header)?;
    Ok(header.length as usize)
}

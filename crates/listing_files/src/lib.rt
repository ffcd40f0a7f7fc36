// The listing program over files: a reference file and a file of blocks, by their paths, and the
// text on standard output. What is printed is crate lines'; here files are read and text is
// written. What cannot be opened, read or written is said on standard error, and then no line `end`
// or `refused` is printed.
#![tactic(auto)]

mod all_blocks;
pub mod windows;

ghost use Rattle.std.specs.Prelude.{◌≤◌, IfOk, length};

use all_blocks::{Lent, list_blocks};
use dna::refusals::Refusal;
use integers::u64_at;
use lines::put_refused_line;
use lines::turns::{
    ENDS_LENT, LETTERS_LENT, NAME_BYTES_LENT, NAME_ENDS_LENT, TEXT_ROOM, reference_refused,
};
use std::io::{Error, ErrorKind, Read};
use std::rt::Files;
use std::{fs, io};
use windows::fill;

// One byte more than a reference file may have, so that a longer one is noticed.
const REFERENCE_ROOM: usize = 32_769;

// The bytes that a path may have.
pub const PATH_ROOM: usize = 4_096;

// Two blocks of the largest size.
const BUFFER_ROOM: usize = 65_536;

// What could not be opened, read or written, and why.
#[derive(Debug, Drop)]
enum Fault {
    Reference(Error),
    Blocks(Error),
    Output(Error),
}

// Lists a file of blocks under a reference file. A path that is not UTF-8 is one that cannot be
// opened.
pub fn list_files<R: Files + Print + Eprint>(rt: &R, reference: &[u8], blocks: &[u8]) {
    match list(rt, reference, blocks) {
        Ok(()) => {}
        Err(Fault::Reference(error)) => put_fault(rt, reference, error),
        Err(Fault::Blocks(error)) => put_fault(rt, blocks, error),
        Err(Fault::Output(error)) => put_fault(rt, b"standard output", error),
    }
}

fn list<R: Files + Print>(rt: &R, reference: &[u8], blocks: &[u8]) -> Result<(), Fault> {
    let mut room = [0; REFERENCE_ROOM];
    let size = read_file(rt, reference, &mut room).map_err(Fault::Reference)?;
    let mut file = open_read(rt, blocks).map_err(Fault::Blocks)?;
    list_opened(rt, &mut file, &room[..size])
}

// Reads a file, or as much of it as there is room for, and gives how much that is.
fn read_file<R: Files>(rt: &R, path: &[u8], room: &mut [u8]) -> io::Result<usize>
    ensures { IfOk result (λ size. size ≤ length room.old) }
{
    let mut file = open_read(rt, path)?;
    fill(&mut file, room, 0)
}

// Opens a file for reading.
fn open_read<R: Files>(rt: &R, path: &[u8]) -> io::Result<R::File> {
    let Ok(path) = str::from_utf8(path) else {
        return Err(Error::new(ErrorKind::InvalidInput, "the path is not UTF-8"));
    };
    fs::open(rt, path)
}

// Lists an opened file of blocks. It is read from before anything is printed.
fn list_opened<R: Print, F: Read>(rt: &R, file: &mut F, reference: &[u8]) -> Result<(), Fault> {
    let mut buffer = [0; BUFFER_ROOM];
    let mut lent = Lent {
        letters: [0; LETTERS_LENT],
        ends: [0; ENDS_LENT],
        names: [0; NAME_BYTES_LENT],
        name_ends: [0; NAME_ENDS_LENT],
    };
    let mut text = [0; TEXT_ROOM];
    let filled = fill(file, &mut buffer, 0).map_err(Fault::Blocks)?;
    if reference_refused(reference) {
        let number = Refusal::ReferenceSizeWrong.number();
        let size = put_refused_line(number, 0, 0, &mut text, 0);
        return rt.write_all(&text[..size]).map_err(Fault::Output);
    }
    list_blocks(
        rt,
        file,
        u64_at(reference, 0),
        &reference[8..],
        &mut buffer,
        filled,
        &mut lent,
        &mut text,
    )
}

// Says of a file why it could not be read or written.
fn put_fault(rt: &impl Eprint, name: &[u8], error: Error) {
    let _ = match str::from_utf8(name) {
        Ok(name) => eprintln!(rt; "listing: {name}: {error}"),
        Err(_) => eprintln!(rt; "listing: {}: {error}", name.escape_ascii()),
    };
}

// Runs the cases of the second implementation (rust/second/CORPUS.md) through the public calls and
// prints what they give; the file stdout holds what the second implementation gives.
#![tactic(auto)]

mod case_files;
mod columns;
mod kinds;
mod outcomes;
mod read_lengths;
mod reading;
mod sections;
mod writing;

use std::io;

fn main(rt: HostRuntime) -> io::Result<()> {
    case_files::run_file(&rt, b"sections.bin")?;
    case_files::run_file(&rt, b"lengths.bin")?;
    case_files::run_file(&rt, b"decode.bin")?;
    case_files::run_file(&rt, b"validate_block.bin")?;
    case_files::run_file(&rt, b"validate.bin")?;
    case_files::run_file(&rt, b"encode.bin")?;
    case_files::run_file(&rt, b"decode_large.bin")?;
    case_files::run_file(&rt, b"encode_large.bin")
}

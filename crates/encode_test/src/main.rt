// A test of ora::encode: the specification's sums on lone differences, and a refused call for each
// of 1 and 30 to 34. The file stdout holds what the specification gives.
//
// A line: a name, and `written` with the block's length, up to 16 bytes of its DNA section in
// hexadecimal digits, and what validate_block then answers: the length, and reads, letters,
// entries, differences and top; or `refused` with the number, and whether the buffer holds what it
// held before.
#![tactic(auto)]

mod differences;
mod refusals;
mod show;

use std::io;

fn main(rt: HostRuntime) -> io::Result<()> {
    differences::run_differences(&rt)?;
    refusals::run_refusals(&rt)
}

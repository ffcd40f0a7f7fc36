// A test of the public calls: the specification's sums as whole blocks, a record whose lists are
// full, a block of several groups, a damaged block for each refusal, files, and the sections of a
// block. The file stdout holds what the specification gives.
//
// A block's line: its name, the answer of decode, that of validate_block, and both lent buffers
// after decode, or `untouched`. An answer is `accepted` with the block's length and its reads,
// letters, entries, differences and top, or `refused` with the number and the read. Before the call
// every letter is `.` and every end 99.
//
// A file's line: its name and `accepted` with the blocks and the five sums, or `refused` with the
// number, the block and the read.
#![tactic(auto)]

mod block;
mod damage;
mod damaged_dna;
mod full_lists;
mod groups;
mod joined_files;
mod lone_differences;
mod outcomes;
mod read_lengths;
mod sections;
mod show;
mod sums;
mod ten_reads;

use std::io;

fn main(rt: HostRuntime) -> io::Result<()> {
    sums::run_sums(&rt)?;
    read_lengths::run_lengths(&rt)?;
    lone_differences::run_differences(&rt)?;
    full_lists::run_full(&rt)?;
    groups::run_groups(&rt)?;
    damage::run_faults(&rt)?;
    damaged_dna::run_faults(&rt)?;
    joined_files::run_files(&rt)?;
    sections::run_sections(&rt)
}

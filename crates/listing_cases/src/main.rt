// Lists files of its own, made by the second implementation (rust/second/src/listing_cases.rs): the
// specification's example, refused references and blocks, as much as fits and one more, and reads
// at the top. The case NAME has the files NAME.reference and NAME.blocks.
#![tactic(auto)]

use lines::put_text;
use listing_files::PATH_ROOM;
use std::io;
use std::rt::Files;

// The names of cases are shorter.
const NAME_ROOM: usize = 64;

// The listing of a case, under its name.
fn list_case<R: Files + Print + Eprint>(rt: &R, name: &[u8]) -> io::Result<()> {
    if NAME_ROOM < name.len() {
        return Ok(());
    }
    rt.write_all(b"case ")?;
    rt.write_all(name)?;
    rt.write_all(b"\n")?;
    let mut reference = [0u8; PATH_ROOM];
    let reference_end = put_text(name, &mut reference, 0);
    let reference_size = put_text(b".reference", &mut reference, reference_end);
    let mut blocks = [0u8; PATH_ROOM];
    let blocks_end = put_text(name, &mut blocks, 0);
    let blocks_size = put_text(b".blocks", &mut blocks, blocks_end);
    listing_files::list_files(rt, &reference[..reference_size], &blocks[..blocks_size]);
    Ok(())
}

// The specification's example, and blocks with and without a refusal.
fn list_blocks<R: Files + Print + Eprint>(rt: &R) -> io::Result<()> {
    list_case(rt, b"example")?;
    list_case(rt, b"empty")?;
    list_case(rt, b"no_reads")?;
    list_case(rt, b"lengths_with_n")?;
    list_case(rt, b"refused_first")?;
    list_case(rt, b"refused_later")
}

// A file that ends in a block, and a reference of no bases.
fn list_rests<R: Files + Print + Eprint>(rt: &R) -> io::Result<()> {
    list_case(rt, b"rest_of_a_block")?;
    list_case(rt, b"cut_block")?;
    list_case(rt, b"no_bases")?;
    list_case(rt, b"no_bases_aligned")
}

// Reference files that get 1, and the largest that does not.
fn list_references<R: Files + Print + Eprint>(rt: &R) -> io::Result<()> {
    list_case(rt, b"reference_short")?;
    list_case(rt, b"reference_cut")?;
    list_case(rt, b"reference_cut_example")?;
    list_case(rt, b"reference_largest")?;
    list_case(rt, b"reference_too_large")
}

// As much as fits the window and what is lent, and one more; and reads at the top.
fn list_limits<R: Files + Print + Eprint>(rt: &R) -> io::Result<()> {
    list_case(rt, b"window_full")?;
    list_case(rt, b"window_overrun")?;
    list_case(rt, b"buffers_full")?;
    list_case(rt, b"too_many_letters")?;
    list_case(rt, b"too_many_reads")?;
    list_case(rt, b"many_blocks")?;
    list_case(rt, b"top")
}

fn main(rt: HostRuntime) -> io::Result<()> {
    list_blocks(&rt)?;
    list_rests(&rt)?;
    list_references(&rt)?;
    list_limits(&rt)
}

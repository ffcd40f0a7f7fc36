// listing REFERENCE BLOCKS: prints the reads of a file of blocks, as 01's listing program does.
#![tactic(auto)]

use listing_files::PATH_ROOM;
use std::env::FillError;
use std::rt::Env;

// Whether an argument stands at an index.
fn has_arg(rt: &impl Env, index: usize) -> bool {
    !matches!(rt.arg(index, &mut []), Err(FillError::NotPresent))
}

fn main(rt: HostRuntime) {
    if !has_arg(&rt, 2) || has_arg(&rt, 3) {
        let _ = eprintln!(rt; "usage: listing REFERENCE BLOCKS");
        return;
    }
    let mut reference = [0u8; PATH_ROOM];
    let Ok(reference_size) = rt.arg(1, &mut reference) else {
        let _ = eprintln!(rt; "listing: REFERENCE: File name too long");
        return;
    };
    let mut blocks = [0u8; PATH_ROOM];
    let Ok(blocks_size) = rt.arg(2, &mut blocks) else {
        let _ = eprintln!(rt; "listing: BLOCKS: File name too long");
        return;
    };
    listing_files::list_files(&rt, &reference[..reference_size], &blocks[..blocks_size]);
}

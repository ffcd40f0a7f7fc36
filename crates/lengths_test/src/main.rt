// A test of lengths: size sections as the encoder writes them and as they are read, of the
// specification's sums on lengths, a block with each of the faults 2 to 10, and a block's largest
// number of reads. The file stdout holds what the specification gives.
#![tactic(auto)]

mod block;
mod damage;
mod lines;
mod lists;
mod many;
mod parts;
mod section;

use std::io;

fn main(rt: HostRuntime) -> io::Result<()> {
    lists::run_lists(&rt)?;
    damage::run_faults(&rt)?;
    many::run_many(&rt)
}

// A test of records and record_letters: the specification's sums on records, other records that are
// good, and a damaged record for each of the rules 12 to 20. The reference is ACGTACGTTGCA. The
// file stdout holds what the specification gives.
#![tactic(auto)]

mod damage;
mod good;
mod lines;
mod show;

use std::io;

fn main(rt: HostRuntime) -> io::Result<()> {
    good::run_sums(&rt)?;
    good::run_placed(&rt)?;
    good::run_others(&rt)?;
    good::run_after(&rt)?;
    damage::run_cut(&rt)?;
    damage::run_flags(&rt)?;
    damage::run_places(&rt)?;
    damage::run_entries(&rt)?;
    damage::run_packed(&rt)?;
    damage::run_n_lists(&rt)?;
    damage::run_n_words(&rt)
}

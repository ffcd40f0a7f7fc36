// A test of the names that ora::decode reads and ora::encode writes (02, Ticket 1): names sections
// written by hand that are read, unread and refused, calls of the writer that earn 41, and names
// that are written and read back. The file stdout holds what the specification gives.
//
// A line of a block written by hand: a name that begins with the number that the table of refusals
// gives, 0 for none; what decode and validate_block answer; then letters and ends, and names and
// name ends, each pair as it was lent or `untouched`. A line of the writer: `written` with the
// block's length, the types of the columns, and names and name ends that decode reads of it; or
// `refused` with the number, and whether the buffer holds what it held before.
#![tactic(auto)]

mod block;
mod column_faults;
mod lines;
mod name_faults;
mod outcomes;
mod parts;
mod round_trips;
mod sections;
mod show;
mod writing;

use std::io;

fn main(rt: HostRuntime) -> io::Result<()> {
    sections::run_sections(&rt)?;
    column_faults::run_column_faults(&rt)?;
    name_faults::run_name_faults(&rt)?;
    round_trips::run_round_trips(&rt)
}

// The letters and the differences of a decoded record (01, Records). The contracts cite
// specs/Letters.antt and Counts.antt of dna; how a record lies in the section is told in
// specs/Laid.antt, how its letters are written in specs/Printed.antt.
#![tactic(auto)]

pub mod counts;
pub mod letters;
pub mod tables;

// The table of contents of a block and its sections (01, The desk's material; 000, table 2): its
// fields read, its faults 2 to 8, the place of each section, and a table written. The contracts
// cite specs/Header.antt, Sections.antt, HeaderFaults.antt, BlockAnswer.antt and RuleBlock.antt of
// format.
#![tactic(auto)]

pub mod faults;
pub mod fields;
pub mod sections;
pub mod table;
pub mod writing;

// The case files of the second implementation (rust/second/CORPUS.md): a case read from its file,
// and the hash of what a case gives. The contracts cite specs/CaseFile.antt and specs/Hash.antt.
#![tactic(auto)]

pub mod case_file;
pub mod hash;

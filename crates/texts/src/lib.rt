// Rule texts: the words they are made of, how they are read from the left, and how what they bring to a sheet is counted.
// The reader and the sheet of crate `rules` stand on it; the theorems in claims.rt tie the reading to the writing of rules.
#![tactic(auto)]

pub mod claims;
pub mod words;

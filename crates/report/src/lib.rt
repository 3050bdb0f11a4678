// One file in, the printed text out.
// The program (`check_file`) prints its answer, and the stored cases (`vectors`) run through it.
#![tactic(auto)]

pub mod report;
mod text;

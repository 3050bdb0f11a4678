// A sheet: its names, and its rules as breach formulas in normal form.
// Loading (`loading`) and lists of calls (`replay`) open sheets and enter rules, and charts (`charts`) are filled from the breach formulas.
#![tactic(auto)]

mod entering;
mod names;
mod reading;
pub mod sheet;
mod sign;
mod store;
mod words;

// Loads a file into a sheet and a table: its names, rules, states and steps; or says which line is refused, by which layer and why.
// The report (`report`) and lists of calls (`replay`, `logs`) stand on it.
#![tactic(auto)]

pub mod load;
mod taking;

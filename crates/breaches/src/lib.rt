// Finds a shortest breach: over a filled chart and any machine, within a lent pair area, a shortest walk that breaks the chart's rule.
// The report (`report`) and lists of calls (`replay`) stand on it.
#![tactic(auto)]

mod exploration;
pub mod find;
mod kept;
mod levels;

// Charts: the labels and standings of a rule in lent areas, the watch that follows letters through them, and questions about them.
// Finding breaches (`breaches`), the report (`report`) and lists of calls (`replay`) stand on it.
#![tactic(auto)]

pub mod chart;
mod filling;
mod labels;
mod standings;
pub mod state;
mod worklist;

// Machines: the trait with its seven questions; the table, the round of letters, the stuck layer over any machine.
// Finding breaches (`breaches`) and lists of calls (`replay`) stand on the trait, and loading (`loading`) on the table.
#![tactic(auto)]

pub mod lent;
pub mod machine;
pub mod records;
pub mod round;
pub mod stuck;
pub mod table;

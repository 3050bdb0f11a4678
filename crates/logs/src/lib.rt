// A log of calls as text: its lines as calls, their answers as lines.
// The program (`replay_log`) prints its answer.
#![tactic(auto)]

mod answers;
mod areas;
pub mod claims;
mod entries;
mod fields;
mod machine;
mod reading;
pub mod replay_log;
mod unread;
mod writing;

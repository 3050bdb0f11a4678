// Lists of calls on sheets, tables and charts, made one after another. Every answer is right after the calls before it.
// Logs of calls (`logs`) stand on it, and the tests (`trials`) call it.
#![tactic(auto)]

pub mod answer;
pub mod call;
mod find;
mod look;
pub mod make;
pub mod replay;
mod steps;
mod text;

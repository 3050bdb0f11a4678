// Formulas in normal form as numbered nodes, the kept formulas of a root, and the step from a word's label to that of a longer word.
// The sheet of rules (`rules`) holds its formulas so, and the filling of charts (`charts`) goes by the labels.
#![tactic(auto)]

pub mod breach;
mod labels;
mod marks;
pub mod node;

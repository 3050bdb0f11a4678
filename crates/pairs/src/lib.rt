// The pairs of walks that are kept while a breach is looked for, and the argument that looking by levels is exact: definitions and laws, hardly any running code.
// The theory of charts (`charting`) and finding breaches (`breaches`) stand on it.
#![tactic(auto)]

pub mod level;
pub mod pair;

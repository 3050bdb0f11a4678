// The theory of charts: what the areas of a filled chart hold, step by step, and what that says of the words of a rule.
// Charts (`charts`) and finding breaches (`breaches`) stand on it. Definitions and laws, no running code.
#![tactic(auto)]

pub mod claims;

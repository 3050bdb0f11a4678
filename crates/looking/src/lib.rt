// The call that looks for a breach, under a name that crates with code can cite: one definition, no running code.
// Finding breaches (`breaches`) stands on it.
#![tactic(auto)]

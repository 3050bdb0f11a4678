// Tests of single calls, above all of the refusals that no file can bring about.
// Nothing stands on it.
#![tactic(auto)]

#[cfg(test)]
mod areas;
#[cfg(test)]
mod charts_and_watches;
#[cfg(test)]
mod files;
#[cfg(test)]
mod fixed_lists;
#[cfg(test)]
mod lists_of_calls;
#[cfg(test)]
mod machines_and_walks;
#[cfg(test)]
mod ranges;
#[cfg(test)]
mod sheets;
#[cfg(test)]
mod told;

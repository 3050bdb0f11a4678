// The numbers of labels and standings of a rule.
use crate::areas::Areas;
use crate::sheets::{field, fill};
use std::alloc::Global;

pub(crate) fn passes(heap: Global, line: &str) -> anyhow::Result<bool> {
    let mut areas = Areas::new();
    let mut chart = areas.chart();
    let Some((labels, standings)) = fill(&mut chart, line)? else {
        return Ok(false);
    };
    let counts = format!(in heap; "{labels},{standings}")?;
    Ok(counts.as_str() == field(line, 5))
}

// Which scan of a list of letters breaks a watch.
use crate::areas::Areas;
use crate::sheets::{field, fill};
use anyhow::anyhow;
use charts::chart::Chart;
use meaning::answers::Scanned;
use std::alloc::Global;

// The number of the scan that breaks the watch, from 0; letters behind it are not read.
fn breaking_scan(chart: &mut Chart, letters: &str) -> anyhow::Result<Option<usize>> {
    for (number, letter) in letters.split(',').enumerate() {
        let answer = chart
            .scan(letter.parse()?)
            .map_err(|_| anyhow!("a scan is refused"))?;
        if answer == Scanned::Broken {
            return Ok(Some(number));
        }
    }
    Ok(None)
}

// A line tells the scan from 1, and 0 where none breaks the watch.
pub(crate) fn passes(heap: Global, line: &str) -> anyhow::Result<bool> {
    let mut areas = Areas::new();
    let mut chart = areas.chart();
    if fill(&mut chart, line)?.is_none() || chart.begin().is_err() {
        return Ok(false);
    }
    let scan = breaking_scan(&mut chart, field(line, 2))?.map_or(
        0,
        |number| number.saturating_add(1),
    );
    let text = format!(in heap; "{scan}")?;
    Ok(text.as_str() == field(line, 3))
}

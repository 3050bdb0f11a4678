// The fields of a line, and the filling of a chart for its rule.
use anyhow::anyhow;
use charts::chart::Chart;
use rules::sheet::Sheet;

// Field `number` of a line, from 0; an empty one where there is none.
pub(crate) fn field(line: &str, number: usize) -> &str {
    line.split('\t').nth(number).unwrap_or("")
}

// The sheet of a line: its first two fields are the names and a rule.
fn sheet_of(line: &str) -> anyhow::Result<Sheet> {
    let mut sheet = Sheet::new();
    sheet
        .open(field(line, 0).as_bytes())
        .map_err(|_| anyhow!("the names are refused"))?;
    sheet
        .enter(field(line, 1).as_bytes())
        .map_err(|_| anyhow!("the rule is refused"))?;
    Ok(sheet)
}

// Fills a chart for the rule of a line: the numbers of labels and standings, or none where it refuses.
pub(crate) fn fill(chart: &mut Chart, line: &str) -> anyhow::Result<Option<(usize, usize)>> {
    Ok(chart.fill(&sheet_of(line)?, 0).ok())
}

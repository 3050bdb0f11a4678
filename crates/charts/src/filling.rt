// The whole filling of a chart's areas: the labels, the standings, and the next numbers.
ghost use Rattle.std.specs.Prelude.{◌≤◌, length, MatchResult};
ghost use Rattle.rules.specs.Kept.{formula_of};
ghost use Rattle.charting.specs.Breaches.{kept_of};
ghost use Rattle.charting.specs.Worklists.{Rooms};
ghost use Rattle.charting.specs.Filled.{FilledOnce, Refused, FillingOnce, Refusing, areas_of};

use crate::labels::all_labels;
use crate::standings::{all_standings, first_standing};
use formulas::breach::BreachFormula;
use meaning::refusals::FillingFault;

// Fills areas that are wholly usable: at most 512 labels and standings. The table is for the labels one letter earlier, and the columns for the same by letters.
// Kept: the three areas are the chart's own, and a struct of three loans would be one type more between it and them.
fn fill_places(
    formula: &BreachFormula,
    labels: &mut [u32],
    standings: &mut [[u64; 8]],
    next: &mut [u16],
    table: &mut [u16],
    columns: &mut [u16],
) -> Result<(usize, usize), FillingFault>
    requires labels { Rooms labels.old table.old }
    requires standings { Rooms standings.old next.old }
    requires columns { 131072 ≤ length columns.old }
    ensures { MatchResult result (λ p. FilledOnce (formula_of formula.now) (kept_of formula.now) labels.new p.0 standings.new p.1 next.new) (λ e. Refused (formula_of formula.now) (kept_of formula.now) (length labels.old) (length standings.old) e) }
{
    let place = formula.root_place();
    let a = all_labels(labels, table, formula).ok_or(FillingFault::LabelsExceed)?;
    let first = first_standing(&labels[..a], place);
    let b = all_standings(standings, next, table, columns, a, &first).ok_or(
        FillingFault::StandingsExceed,
    )?;
    Ok((a, b))
}

// Fills areas of any lengths: the numbers of labels and of standings.
pub(crate) fn fill_areas(
    formula: &BreachFormula,
    labels: &mut [u32],
    standings: &mut [[u64; 8]],
    next: &mut [u16],
) -> Result<(usize, usize), FillingFault>
    ensures { MatchResult result (λ p. FillingOnce (formula_of formula.now) (areas_of labels.old standings.old next.old) labels.new p.0 standings.new p.1 next.new) (λ e. Refusing (formula_of formula.now) (areas_of labels.old standings.old next.old) e) }
{
    let mut table = [0u16; 131072];
    let mut columns = [0u16; 131072];
    let label_places = labels.len().min(512);
    let places = standings.len().min(next.len() / 256).min(512);
    fill_places(
        formula,
        &mut labels[..label_places],
        &mut standings[..places],
        next,
        &mut table,
        &mut columns,
    )
}

// Any call of the list.
ghost use Rattle.std.specs.Prelude.{◌≡◌, MatchResult};
ghost use Rattle.replay.specs.Objects.{objects, lent};
ghost use Rattle.replay.specs.Meant.{meant};
ghost use Rattle.replay.specs.Replayed.{StepLed};

use crate::answer::Answer;
use crate::call::Call;
use crate::find::{Wanted, find};
use crate::steps;
use charts::chart::Chart;
use machines::machine::Machine;
use machines::table::Table;
use rules::sheet::Sheet;
use std::alloc::{AllocError, Global};

// Makes a call, or answers why it is not made. Where memory ends, nothing is changed.
pub fn make<M: Machine>(
    heap: Global,
    call: &Call<M>,
    sheets: &mut [Sheet],
    tables: &mut [Table],
    charts: &mut [Chart],
) -> Result<Answer, AllocError>
    ensures led { let o = objects sheets.old tables.old charts.old in let o' = objects sheets.new tables.new charts.new in MatchResult result (λ a. StepLed (meant M.Machine.meaning M.Machine.lawful (lent o) call.now) a o o') (λ _. o' ≡ o) }
{
    match call {
        Call::Open { sheet, names } => Ok(steps::open(sheets, *sheet, names.as_slice())),
        Call::Enter { sheet, rule } => Ok(steps::enter(sheets, *sheet, rule.as_slice())),
        Call::Load { sheet, table, file } => Ok(steps::load_file(
            sheets,
            tables,
            *sheet,
            *table,
            file.as_slice(),
        )),
        Call::Fill { chart, sheet, rule } => Ok(steps::fill(charts, sheets, *chart, *sheet, *rule)),
        Call::Begin { chart } => Ok(steps::begin(charts, *chart)),
        Call::Scan { chart, letter } => Ok(steps::scan(charts, *chart, *letter)),
        Call::Search {
            chart,
            machine,
            pairs,
            walk,
        } => {
            let wanted = Wanted {
                chart: *chart,
                machine,
                pairs: *pairs,
                walk: *walk,
            };
            find(heap, charts, tables, &wanted)
        }
    }
}

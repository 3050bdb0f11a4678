// Calls on new objects, and their answers.
ghost use Rattle.std.specs.Prelude.{[], IfOk};
ghost use Rattle.replay.specs.Replayed.{RightAnswers};
ghost use Rattle.logs.specs.Fresh.{AllBlank, AllNew, with_two_sheets, with_tables, new_objects};

use crate::areas::{ChartAreas, TableAreas};
use charts::chart::Chart;
use machines::machine::Machine;
use machines::table::Table;
use replay::answer::Answer;
use replay::call::Call;
use replay::replay::replay;
use rules::sheet::Sheet;
use std::alloc::{AllocError, Global};

// On two new sheets, and these tables and charts.
fn answer_with<M: Machine>(
    heap: Global,
    calls: &[Call<M>],
    tables: &mut [Table],
    charts: &mut [Chart],
) -> Result<Vec<Answer>, AllocError>
    ensures { AllBlank tables.old → AllNew charts.old → IfOk result (λ v. RightAnswers M.Machine.meaning M.Machine.lawful (with_two_sheets tables.old charts.old) [] calls.now v.items) }
{
    let mut sheets = [Sheet::new(), Sheet::new()];
    replay(heap, calls, &mut sheets, tables, charts)
}

// On these tables, and two new sheets and charts.
fn answer_on<M: Machine>(
    heap: Global,
    calls: &[Call<M>],
    tables: &mut [Table],
) -> Result<Vec<Answer>, AllocError>
    ensures { AllBlank tables.old → IfOk result (λ v. RightAnswers M.Machine.meaning M.Machine.lawful (with_tables tables.old) [] calls.now v.items) }
{
    let mut first = ChartAreas::new(heap)?;
    let mut second = ChartAreas::new(heap)?;
    let mut charts = Vec::new(heap);
    charts.push(first.chart())?;
    charts.push(second.chart())?;
    answer_with(heap, calls, tables, charts.as_mut_slice())
}

// On two new sheets, tables and charts.
pub(crate) fn answer_all<M: Machine>(
    heap: Global,
    calls: &[Call<M>],
) -> Result<Vec<Answer>, AllocError>
    ensures { IfOk result (λ v. RightAnswers M.Machine.meaning M.Machine.lawful new_objects [] calls.now v.items) }
{
    let mut first = TableAreas::new(heap)?;
    let mut second = TableAreas::new(heap)?;
    let mut tables = Vec::new(heap);
    tables.push(first.table())?;
    tables.push(second.table())?;
    answer_on(heap, calls, tables.as_mut_slice())
}

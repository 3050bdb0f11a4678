// A list of calls.
ghost use Rattle.std.specs.Prelude.{MatchResult};
ghost use Rattle.replay.specs.Objects.{objects};
ghost use Rattle.replay.specs.Replayed.{Replayed, CutOff};

use crate::answer::Answer;
use crate::call::Call;
use crate::make::make;
use charts::chart::Chart;
use machines::machine::Machine;
use machines::table::Table;
use rules::sheet::Sheet;
use std::alloc::{AllocError, Global};

// Makes the calls one after another, and answers the list of their answers.
pub fn replay<M: Machine>(
    heap: Global,
    calls: &[Call<M>],
    sheets: &mut [Sheet],
    tables: &mut [Table],
    charts: &mut [Chart],
) -> Result<Vec<Answer>, AllocError>
    ensures led { let o = objects sheets.old tables.old charts.old in let o' = objects sheets.new tables.new charts.new in MatchResult result (λ v. Replayed M.Machine.meaning M.Machine.lawful calls.now v.items o o') (λ _. CutOff M.Machine.meaning M.Machine.lawful calls.now o o') }
{
    let mut answers = Vec::new(heap);
    for call in calls {
        answers.push(make(heap, call, sheets, tables, charts)?)?;
    }
    Ok(answers)
}

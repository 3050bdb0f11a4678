// Looking for a breach as a call of the list.
ghost use Rattle.std.specs.Prelude.{List, IfOk};
ghost use Rattle.rules.specs.declared.sheet.Sheet.{Sheet as SheetIs};
ghost use Rattle.replay.specs.Objects.{objects, lent};
ghost use Rattle.replay.specs.Meant.{searching_at};
ghost use Rattle.replay.specs.Replayed.{StepLed};

use crate::answer::Answer;
use crate::call::Pile;
use crate::look::Look;
use charts::chart::Chart;
use machines::machine::Machine;
use machines::table::Table;
use std::alloc::{AllocError, Global};

// Where to look: over which chart and machine, and in areas of how many entries.
#[derive(Drop)]
pub(crate) struct Wanted<'a, M> {
    pub(crate) chart: usize,
    pub(crate) machine: &'a Pile<M>,
    pub(crate) pairs: usize,
    pub(crate) walk: usize,
}

pub(crate) fn find<M: Machine>(
    heap: Global,
    charts: &[Chart],
    tables: &[Table],
    wanted: &Wanted<M>,
) -> Result<Answer, AllocError>
    ensures { IfOk result (λ a. (ss : List SheetIs) → let o = objects ss tables.now charts.now in StepLed (searching_at M.Machine.meaning M.Machine.lawful (lent o) wanted.now.chart wanted.now.machine.now wanted.now.pairs wanted.now.walk) a o o) }
{
    if wanted.chart >= charts.len() {
        return Ok(Answer::NoSuchObject);
    }
    let look = Look {
        heap,
        chart: &charts[wanted.chart],
        pairs: wanted.pairs,
        walk: wanted.walk,
    };
    look.on(tables, wanted.machine)
}

// The areas that new tables and charts are lent, as large as those of the report of a file.
ghost use Rattle.std.specs.Prelude.{◌≡◌, ℕ, None, IfOk};
ghost use Rattle.meaning.specs.Kinds.{no_lines};
ghost use Rattle.meaning.specs.Calls.{History};
ghost use Rattle.meaning.specs.Histories.{filled_rule, watch};
ghost use Rattle.meaning.specs.Printed.{table_rooms, chart_areas};
ghost use Rattle.machines.specs.Held.{held_lines, rooms_of};
ghost use Rattle.charts.specs.Fills.{areas};
ghost use Rattle.charts.specs.Led.{ChartLed};
ghost use Rattle.logs.specs.Sizes.{sizes_of_table, sizes_of_chart};

use charts::chart::Chart;
use machines::records::{State, Step};
use machines::table::Table;
use std::alloc::{AllocError, Global};

#[derive(Drop)]
pub(crate) struct TableAreas {
    states: Vec<State>,
    steps: Vec<Step>,
}

impl TableAreas {
    pub(crate) fn new(heap: Global) -> Result<TableAreas, AllocError>
        ensures { IfOk result (λ a. sizes_of_table a ≡ table_rooms) }
    {
        let states = vec![in heap; State::BLANK; 256]?;
        let steps = vec![in heap; Step::BLANK; 1024]?;
        Ok(TableAreas { states, steps })
    }

    // A table without lines over the areas.
    pub(crate) fn table(&mut self) -> Table<'_>
        ensures rooms { rooms_of result ≡ sizes_of_table self.old }
        ensures lines { held_lines result ≡ no_lines }
    {
        Table::new(self.states.as_mut_slice(), self.steps.as_mut_slice())
    }
}

#[derive(Drop)]
pub(crate) struct ChartAreas {
    labels: Vec<u32>,
    standings: Vec<[u64; 8]>,
    next: Vec<u16>,
}

impl ChartAreas {
    pub(crate) fn new(heap: Global) -> Result<ChartAreas, AllocError>
        ensures { IfOk result (λ a. sizes_of_chart a ≡ chart_areas) }
    {
        let labels = vec![in heap; 0; 512]?;
        let standings = vec![in heap; [0; 8]; 32]?;
        let next = vec![in heap; 0; 8192]?;
        Ok(ChartAreas {
            labels,
            standings,
            next,
        })
    }

    // A blank chart over the areas.
    pub(crate) fn chart(&mut self) -> Chart<'_>
        ensures areas { areas result ≡ sizes_of_chart self.old }
        ensures led { (h : History) (c : ℕ) → filled_rule h c ≡ None → watch h c ≡ None → ChartLed h c result }
    {
        Chart::new(
            self.labels.as_mut_slice(),
            self.standings.as_mut_slice(),
            self.next.as_mut_slice(),
        )
    }
}

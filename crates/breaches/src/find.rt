// Walks by levels until one is a breach, or none is left, or a pair finds no room.
ghost use Rattle.std.specs.Prelude.{◌≡◌, ℕ, ◌<◌, length};
ghost use Rattle.meaning.specs.Calls.{Machine as Called, History};
ghost use Rattle.meaning.specs.Histories.{meaning_of};
ghost use Rattle.meaning.specs.Right.{Right};
ghost use Rattle.looking.specs.Looking.{looking};
ghost use Rattle.charts.specs.Led.{ChartLed};
ghost use Rattle.pairs.specs.Stages.{nothing_kept};
ghost use Rattle.pairs.specs.Verdicts.{Answers};
ghost use Rattle.breaches.specs.Charts.{reader_of};
ghost use Rattle.breaches.specs.Counts.{tally_of};
ghost use Rattle.breaches.specs.Searched.{Searched, SearchedAsRead, Early, Within};

use crate::exploration::Exploration;
use crate::kept::KeptPairs;
use charts::chart::Chart;
use machines::machine::Machine;
use meaning::answers::Verdict;
use meaning::refusals::SearchingFault;
use pairs::pair::Pair;
use std::ops::ControlFlow;

impl<M: Machine> Exploration<'_, M> {
    // Looks level by level, once nothing is refused before looking.
    fn run(&self, kept: &mut KeptPairs, walk: &mut [usize]) -> Result<Verdict, SearchingFault>
        requires fresh { tally_of kept.old ≡ nothing_kept }
        requires longer { length kept.old.list.area.now < length walk.old }
        ensures { Answers (M.Machine.meaning self.now.machine.now) (reader_of self.now.chart.now) (length kept.old.list.area.now) walk.old walk.new result }
    {
        if let ControlFlow::Break(start) = self.begin(kept) {
            walk[0] = start;
            return Ok(Verdict::Shown { states: 1 });
        }
        while !kept.full && kept.base < kept.list.len() {
            let low = kept.base;
            kept.base = kept.list.len();
            kept.depth += 1;
            if let ControlFlow::Break(end) = self.level(kept, low) {
                let states = kept.show(end, walk);
                return Ok(Verdict::Shown { states });
            }
        }
        if kept.full {
            return Err(SearchingFault::PairsExceed);
        }
        let pairs = kept.list.len();
        Ok(Verdict::Clear { pairs })
    }
}

// Looks for a shortest walk of the machine that breaks the rule of the chart, and writes it to the front of the walk area.
pub fn find_breach<M: Machine>(
    chart: &Chart,
    machine: &M,
    pairs: &mut [Pair],
    walk: &mut [usize],
) -> Result<Verdict, SearchingFault>
    ensures answers { Searched chart.now (M.Machine.meaning machine.now) (length pairs.old) walk.old result walk.new }
    ensures reads { SearchedAsRead chart.now (M.Machine.meaning machine.now) (length pairs.old) walk.old result walk.new }
    ensures led { (h : History) (c : ℕ) (k : Called) → ChartLed h c chart.now → meaning_of h k ≡ M.Machine.meaning machine.now → Right h (looking c k (length pairs.old) walk.old) (result, walk.new) }
    ensures within { Within result (length walk.new) }
    ensures early { Early result → pairs.new ≡ pairs.old }
{
    if chart.is_blank() {
        return Err(SearchingFault::Blank);
    }
    if machine.start_count() == 0 {
        return Err(SearchingFault::NoStart);
    }
    if machine.count() > 65536 {
        return Err(SearchingFault::ManyStates);
    }
    if walk.len() <= pairs.len() {
        return Err(SearchingFault::ShortWalkArea);
    }
    Exploration { machine, chart }.run(&mut KeptPairs::new(pairs), walk)
}

// Walks of one state, of two states, and so on: each candidate is tested before its pair is kept.
ghost use Rattle.std.specs.Prelude.{◌≡◌, ℕ, ◌+◌, ◌<◌, ◌≤◌};
ghost use Rattle.pairs.specs.Stages.{nothing_kept, Begins, Leaves, Levels, depth_at};
ghost use Rattle.breaches.specs.Charts.{reader_of, standings_of};
ghost use Rattle.breaches.specs.Counts.{tally_of, Staged};

use crate::exploration::Exploration;
use crate::kept::KeptPairs;
use machines::machine::Machine;
use pairs::level::{Found, LastStep, Tried};
use pairs::pair::Pair;
use std::ops::ControlFlow;

// Kept: each of the three long clauses stands once, so a name for machine, reader and standings would serve one clause each.
impl<M: Machine> Exploration<'_, M> {
    // Keeps the starts; or breaks with a start that is itself a breach.
    pub(crate) fn begin(&self, kept: &mut KeptPairs) -> Tried
        requires fresh { tally_of kept.old ≡ nothing_kept }
        ensures { Begins (M.Machine.meaning self.now.machine.now) (reader_of self.now.chart.now) (standings_of self.now.chart.now) kept.old.list.area.now kept.new.list.area.now (tally_of kept.new) result }
    {
        for k in 0..self.machine.start_count() {
            let state = self.start(k);
            if self.is_breach(state, 0) {
                return ControlFlow::Break(state);
            }
            kept.keep(Pair {
                state,
                standing: 0,
                parent: 0,
                depth: 1,
            });
        }
        ControlFlow::Continue(())
    }

    // Keeps what entry i steps to; or breaks with a step that ends a breach.
    fn leave(&self, kept: &mut KeptPairs, i: usize) -> Found
        requires stage { Staged (M.Machine.meaning self.now.machine.now) self.now.chart.now kept.old }
        requires below { i < kept.old.base }
        requires depth { depth_at kept.old.list.area.now i + 1 ≡ kept.old.depth }
        ensures { Leaves (M.Machine.meaning self.now.machine.now) (reader_of self.now.chart.now) (standings_of self.now.chart.now) kept.old.list.area.now (tally_of kept.old) i kept.new.list.area.now (tally_of kept.new) result }
    {
        let from = kept.entry(i);
        let standing = self.standing_after(from.state, from.standing);
        for k in 0..self.step_count(from.state) {
            let state = self.step(from.state, k);
            if self.is_breach(state, standing) {
                return ControlFlow::Break(LastStep { entry: i, state });
            }
            kept.keep(Pair {
                state,
                standing,
                parent: i,
                depth: kept.depth,
            });
        }
        ControlFlow::Continue(())
    }

    // Leaves the entries from `low` on up to the present level; or breaks with a step behind one of them that ends a breach.
    pub(crate) fn level(&self, kept: &mut KeptPairs, low: usize) -> Found
        requires stage { Staged (M.Machine.meaning self.now.machine.now) self.now.chart.now kept.old }
        requires order { low ≤ kept.old.base }
        requires depth { (i : ℕ) → low ≤ i → i < kept.old.base → depth_at kept.old.list.area.now i + 1 ≡ kept.old.depth }
        ensures { Levels (M.Machine.meaning self.now.machine.now) (reader_of self.now.chart.now) (standings_of self.now.chart.now) kept.old.list.area.now (tally_of kept.old) low kept.new.list.area.now (tally_of kept.new) result }
    {
        for i in low..kept.base {
            self.leave(kept, i)?;
        }
        ControlFlow::Continue(())
    }
}

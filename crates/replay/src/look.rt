// A look for a breach over a machine that is told as data: its ground, and the stuck layers on it.
ghost use Rattle.std.specs.Prelude.{IfOk, length};
ghost use Rattle.replay.specs.Meant.{machine};
ghost use Rattle.replay.specs.Looks.{Looks, LooksUnder, LooksOn};

use crate::answer::Answer;
use crate::call::{Ground, Pile};
use breaches::find::find_breach;
use charts::chart::Chart;
use machines::machine::Machine;
use machines::round::Round;
use machines::stuck::StuckLayer;
use machines::table::Table;
use pairs::pair::Pair;
use std::alloc::{AllocError, Global};

// How to look for a breach: over which chart, and in areas of how many entries.
#[derive(Drop)]
pub(crate) struct Look<'a> {
    pub(crate) heap: Global,
    pub(crate) chart: &'a Chart<'a>,
    pub(crate) pairs: usize,
    pub(crate) walk: usize,
}

impl Look<'_> {
    fn over<M: Machine>(&self, machine: &M) -> Result<Answer, AllocError>
        ensures { IfOk result (Looks self.now.chart.now (M.Machine.meaning machine.now) self.now.pairs self.now.walk) }
    {
        let mut pairs = vec![in self.heap; Pair::BLANK; self.pairs]?;
        let mut walk = vec![in self.heap; 0; self.walk]?;
        let verdict = find_breach(
            self.chart,
            machine,
            pairs.as_mut_slice(),
            walk.as_mut_slice(),
        );
        Ok(Answer::Searched { verdict, walk })
    }

    // Under stuck layers for these signals, from below up.
    fn under<M: Machine>(&self, machine: &M, stuck: &[u8]) -> Result<Answer, AllocError>
        ensures { IfOk result (LooksUnder self.now.chart.now (M.Machine.meaning machine.now) stuck.now self.now.pairs self.now.walk) }
    {
        match stuck {
            [] => self.over(machine),
            [a] => self.over(&StuckLayer::new(machine, *a)),
            [a, b] => self.over(&StuckLayer::new(StuckLayer::new(machine, *a), *b)),
            [a, b, c] => self.over(&StuckLayer::new(
                StuckLayer::new(StuckLayer::new(machine, *a), *b),
                *c,
            )),
            _ => Ok(Answer::ManyLayers),
        }
    }

    pub(crate) fn on<M: Machine>(
        &self,
        tables: &[Table],
        pile: &Pile<M>,
    ) -> Result<Answer, AllocError>
        ensures { IfOk result (LooksOn self.now.chart.now tables.now (machine M.Machine.meaning M.Machine.lawful (length tables.now) pile.now) self.now.pairs self.now.walk) }
    {
        let stuck = pile.stuck.as_slice();
        match &pile.ground {
            Ground::Table(table) => {
                if *table >= tables.len() {
                    return Ok(Answer::NoSuchObject);
                }
                self.under(&tables[*table], stuck)
            }
            Ground::Round(letters) => self.under(&Round::new(letters.as_slice()), stuck),
            Ground::Other(other) => self.under(other, stuck),
        }
    }
}

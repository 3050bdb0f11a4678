// The breach formulas among those of a sheet.
ghost use Rattle.std.specs.Prelude.{◌<◌, length, MatchOption};
ghost use Rattle.formulas.specs.Marks.{ManyKept};
ghost use Rattle.rules.specs.Kept.{BreachAt};
ghost use Rattle.rules.specs.Stored.{nodes_held};

use crate::store::Store;
use formulas::breach::BreachFormula;

impl Store {
    // The breach formula with number `root`; none where over 32 formulas are kept of it.
    pub fn breach(&self, root: u16) -> Option<BreachFormula>
        requires { root < length (nodes_held self.now) }
        ensures { MatchOption result (ManyKept (nodes_held self.now) root) (BreachAt (nodes_held self.now) root) }
    {
        BreachFormula::of(self.nodes.as_slice(), root)
    }
}

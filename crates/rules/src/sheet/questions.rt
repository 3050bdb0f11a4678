// What can be asked of a sheet.
ghost use Rattle.std.specs.Prelude.{◌≡◌, List, length};
ghost use Rattle.fixed.specs.Held.{held};
ghost use Rattle.logic.specs.Formula.{Formula};
ghost use Rattle.meaning.specs.Bytes.{Text};
ghost use Rattle.rules.specs.Model.{Stands, Asked};
ghost use Rattle.rules.specs.Led.{SheetIs};

use crate::sheet::Sheet;
use formulas::breach::BreachFormula;

impl Sheet {
    // How many rules there are.
    pub fn rule_count(&self) -> usize
        ensures is { result ≡ length (held self.now.roots) }
        ensures stands { (ns : List Text) (fs : List Formula) → Stands self.now ns fs → result ≡ length fs }
        ensures entered { (ns ts : List Text) → SheetIs ns ts self.now → result ≡ length ts }
    {
        self.roots.len()
    }

    // The breach formula of a rule; none where there is no such rule.
    pub fn breach(&self, rule: usize) -> Option<BreachFormula>
        ensures { (ns : List Text) (fs : List Formula) → Stands self.now ns fs → Asked fs rule result }
    {
        let root = self.roots.as_slice().get(rule)?;
        self.store.breach(*root)
    }
}

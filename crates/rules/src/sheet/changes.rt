// What makes and changes a sheet.
ghost use Rattle.std.specs.Prelude.{◌≡◌, ℕ, List, []};
ghost use Rattle.logic.specs.Formula.{Formula};
ghost use Rattle.meaning.specs.Bytes.{Text};
ghost use Rattle.meaning.specs.Calls.{History};
ghost use Rattle.meaning.specs.Right.{RightOpening};
ghost use Rattle.texts.specs.Fit.{Fit};
ghost use Rattle.rules.specs.Names.{names_held};
ghost use Rattle.rules.specs.Model.{Stands, Opened, Unchanged, Enters};
ghost use Rattle.rules.specs.Led.{SheetIs, SheetLed, Untouched, OpeningIs, OpeningLed, EnteringIs, EnteringLed};

use crate::entering::read_breach;
use crate::names::Names;
use crate::names::opening::read_names;
use crate::sheet::Sheet;
use crate::store::Store;
use fixed::FixedList;
use meaning::refusals::{NamesFault, SheetFault};

impl Sheet {
    // A sheet with names and no rules.
    fn with_names(names: Names) -> Sheet
        ensures { (ns : List Text) → names_held names ≡ ns → Fit ns → Stands result ns [] }
    {
        Sheet {
            names,
            store: Store::blank(),
            roots: FixedList::new(0),
        }
    }

    // A blank sheet: it has no names and no rules, so it is as any list of calls says that has not touched it.
    pub fn new() -> Sheet
        ensures stands { Stands result [] [] }
        ensures is { SheetIs [] [] result }
        ensures led { (h : History) (n : ℕ) → Untouched h n → SheetLed h n result }
    {
        Sheet::with_names(Names::none())
    }

    // Makes the sheet blank again.
    pub fn clear(&mut self)
        ensures stands { Stands self.new [] [] }
        ensures is { SheetIs [] [] self.new }
    {
        *self = Sheet::new();
    }

    // Gives the sheet the names of a text, parted by commas, and drops its rules. A refusal changes nothing.
    pub fn open(&mut self, text: &[u8]) -> Result<(), NamesFault>
        ensures answer { RightOpening text.now result }
        ensures opens { Opened self.old text.now result self.new }
        ensures is { OpeningIs self.old text.now result self.new }
        ensures led { (h : History) (n : ℕ) → SheetLed h n self.old → OpeningLed h n text.now result self.new }
    {
        let names = read_names(text).ok_or(NamesFault::Unfit)?;
        *self = Sheet::with_names(names);
        Ok(())
    }

    // Adds the rule of a text and answers its number. A refusal changes nothing.
    pub fn enter(&mut self, text: &[u8]) -> Result<usize, SheetFault>
        ensures unchanged { Unchanged result self.old self.new }
        ensures enters { (ns : List Text) (fs : List Formula) → Stands self.old ns fs → Enters ns fs text.now result self.new }
        ensures answers { (ns ts : List Text) → SheetIs ns ts self.old → EnteringIs ns ts text.now result self.new }
        ensures led { (h : History) (n : ℕ) → SheetLed h n self.old → EnteringLed h n text.now result self.new }
    {
        let mut store = self.store;
        let root = read_breach(&self.names, &mut store, self.roots.is_full(), text)?;
        let rule = self.roots.push(root).ok_or(SheetFault::SheetFull)?;
        self.store = store;
        Ok(rule)
    }
}

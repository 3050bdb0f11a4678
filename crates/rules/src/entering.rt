// Reading a rule text into the store.
ghost use Rattle.std.specs.Prelude.{List};
ghost use Rattle.logic.specs.Formula.{Formula};
ghost use Rattle.rules.specs.Names.{names_held};
ghost use Rattle.rules.specs.Entering.{ReadsBreach, HasRoom};
ghost use Rattle.rules.specs.Stored.{nodes_held, Holds, Grown};

use crate::names::Names;
use crate::store::Store;
use crate::words::Reader;
use meaning::refusals::{RuleFault, SheetFault};

// Stores the breach formula of a text and answers its number. `full`: there is no room for a further rule.
// A refused text may leave formulas in the store.
// Kept: `full` is handed in as a flag and no failure yet, since the faults of the text come before it.
pub fn read_breach(
    names: &Names,
    store: &mut Store,
    full: bool,
    text: &[u8],
) -> Result<u16, SheetFault>
    ensures longer { Grown store.old store.new }
    ensures room { HasRoom full (nodes_held store.new) result }
    ensures reads { (gs : List Formula) → Holds store.old gs → ReadsBreach (names_held names.now) full gs text.now (nodes_held store.new) result }
{
    let reader = Reader::new(names, text);
    let (number, rest) = reader.negated(text, 32, store)?;
    if !rest.is_empty() {
        let place = reader.place(rest);
        return Err(SheetFault::Rule(RuleFault::BytesFollow { place }));
    }
    if full {
        return Err(SheetFault::SheetFull);
    }
    let root = number.ok_or(SheetFault::SheetFull)?;
    store.breach(root).ok_or(SheetFault::OverKept)?;
    Ok(root)
}

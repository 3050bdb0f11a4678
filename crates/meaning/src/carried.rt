// A fault carried inside that of the layer above.
// Kept: by hand, since contracts name the fault that a `?` makes (`from_gives`), and a derive says nothing of it.
ghost use Rattle.std.specs.Prelude.{◌≡◌};
ghost use Rattle.meaning.specs.declared.refusals.SheetFault.TheVariants.{Rule};
ghost use Rattle.meaning.specs.declared.refusals.LineFault.TheVariants.{Names, Sheet, Table};

use crate::refusals::{LineFault, NamesFault, RuleFault, SheetFault, TableFault};

impl From<RuleFault> for SheetFault {
    ghost from_gives = { λ e r. r ≡ Rule e };

    fn from(e: RuleFault) -> SheetFault {
        SheetFault::Rule(e)
    }
}

impl From<NamesFault> for LineFault {
    ghost from_gives = { λ e r. r ≡ Names e };

    fn from(e: NamesFault) -> LineFault {
        LineFault::Names(e)
    }
}

impl From<SheetFault> for LineFault {
    ghost from_gives = { λ e r. r ≡ Sheet e };

    fn from(e: SheetFault) -> LineFault {
        LineFault::Sheet(e)
    }
}

impl From<TableFault> for LineFault {
    ghost from_gives = { λ e r. r ≡ Table e };

    fn from(e: TableFault) -> LineFault {
        LineFault::Table(e)
    }
}

// A sheet: its names and its rules.
ghost use Rattle.std.specs.Prelude.{ℕ, ◌<◌, length, slice_index};
ghost use Rattle.fixed.specs.Held.{held};
ghost use Rattle.rules.specs.Kept.{FewKept};
ghost use Rattle.rules.specs.Stands.{SomeRules};
ghost use Rattle.rules.specs.Stored.{nodes_held};

use crate::names::Names;
use crate::store::Store;
use fixed::FixedList;

mod changes;
mod questions;

// Up to eight names, and up to 16 rules, each the number of its breach formula.
#[derive(Clone, Copy)]
pub struct Sheet {
    names: Names,
    store: Store,
    roots: FixedList<u16, 16>,
    ghost rooted: { (i : ℕ) → i < length (held roots) → slice_index (held roots) i < length (nodes_held store) },
    ghost kept: { (i : ℕ) → i < length (held roots) → FewKept (nodes_held store) (slice_index (held roots) i) },
    ghost stands: { SomeRules names (nodes_held store) (held roots) },
}

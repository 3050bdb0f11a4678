// The formulas of a sheet.
ghost use Rattle.fixed.specs.Held.{held};
ghost use Rattle.formulas.specs.Nodes.{OperandsFirst, SignalsSmall};

use fixed::FixedList;
use formulas::node::Node;

pub mod breach;
pub mod build;
pub mod intern;

// Up to 256 nodes, each once, operands before what they are operands of.
// Kept: a node goes by its number, since a sheet has no heap and is copied in fixed memory.
#[derive(Clone, Copy)]
pub struct Store {
    nodes: FixedList<Node, 256>,
    ghost ordered: { OperandsFirst (held nodes) },
    ghost signals: { SignalsSmall (held nodes) },
}

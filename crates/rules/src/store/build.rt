// Nodes of operands that are stored already.
ghost use Rattle.std.specs.Prelude.{◌≡◌, List};
ghost use Rattle.logic.specs.Formula.{Formula, next as later};
ghost use Rattle.rules.specs.Readings.{binary_node as node-of-two, binary_formula, Outcome, Both};
ghost use Rattle.rules.specs.Stored.{nodes_held, IsStored, Grown};

use crate::store::Store;
use formulas::node::Node;
use texts::words::Binary;

// The node of two operands; those of `->` are read so that it is their `|`.
fn binary_node(op: Binary, a: u16, b: u16) -> Node
    ensures { result ≡ node-of-two op a b }
{
    match op {
        Binary::And => Node::And(a, b),
        Binary::Or | Binary::Implies => Node::Or(a, b),
        Binary::Until => Node::Until(a, b),
        Binary::Release => Node::Release(a, b),
    }
}

impl Store {
    // The number of X of a formula; none where the formula has none, or the store is full.
    pub fn intern_next(&mut self, a: Option<u16>) -> Option<u16>
        requires { IsStored self.old a }
        ensures within { IsStored self.new result }
        ensures longer { Grown self.old self.new }
        ensures built { (gs : List Formula) (f : Formula) → Outcome gs f a (nodes_held self.old) → Outcome gs (later f) result (nodes_held self.new) }
    {
        self.intern(Node::Next(a?))
    }

    // The same of an operator with two operands.
    pub fn intern_binary(&mut self, op: Binary, a: Option<u16>, b: Option<u16>) -> Option<u16>
        requires { (IsStored self.old a) × (IsStored self.old b) }
        ensures within { IsStored self.new result }
        ensures longer { Grown self.old self.new }
        ensures built { (gs : List Formula) (f g : Formula) → Both gs f g a b (nodes_held self.old) → Outcome gs (binary_formula op f g) result (nodes_held self.new) }
    {
        self.intern(binary_node(op, a?, b?))
    }
}

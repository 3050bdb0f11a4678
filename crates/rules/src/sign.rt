// The sign that a part of a rule is read with.
ghost use Rattle.std.specs.Prelude.{◌≡◌, ◌<◌};
ghost use Rattle.formulas.specs.Nodes.{reach, signal_of};
ghost use Rattle.texts.specs.Shapes.{LeafNamed};
ghost use Rattle.rules.specs.Signs.{flipped, left_sign, leaf_node, signed};

use formulas::node::Node;
use texts::words::{Binary, Leaf};

// Negated: what is stored is the negation of what is read.
#[derive(Clone, Copy)]
pub enum Sign {
    Positive,
    Negated,
}

impl Sign {
    // The sign under `!`.
    pub fn flipped(self) -> Sign
        ensures { result ≡ flipped self }
    {
        match self {
            Sign::Positive => Sign::Negated,
            Sign::Negated => Sign::Positive,
        }
    }

    // The sign of an operator's left operand: `a -> b` is `!a | b`.
    pub fn of_left(self, op: Binary) -> Sign
        ensures { result ≡ left_sign self op }
    {
        match op {
            Binary::Implies => self.flipped(),
            Binary::And | Binary::Or | Binary::Until | Binary::Release => self,
        }
    }

    // The operator, or its dual under `!`.
    pub fn of(self, op: Binary) -> Binary
        ensures { result ≡ signed self op }
    {
        match (self, op) {
            (Sign::Positive, _) => op,
            (Sign::Negated, Binary::And) => Binary::Or,
            (Sign::Negated, Binary::Or | Binary::Implies) => Binary::And,
            (Sign::Negated, Binary::Until) => Binary::Release,
            (Sign::Negated, Binary::Release) => Binary::Until,
        }
    }

    // The node of a leaf.
    pub fn leaf(self, leaf: Leaf) -> Node
        ensures is { result ≡ leaf_node self leaf }
        ensures bare { reach result ≡ 0 }
        ensures signal { LeafNamed 8 leaf → signal_of result < 8 }
    {
        match (self, leaf) {
            (Sign::Positive, Leaf::True) | (Sign::Negated, Leaf::False) => Node::True,
            (Sign::Positive, Leaf::False) | (Sign::Negated, Leaf::True) => Node::False,
            (Sign::Positive, Leaf::Name(index)) => Node::Signal { index, on: true },
            (Sign::Negated, Leaf::Name(index)) => Node::Signal { index, on: false },
        }
    }
}

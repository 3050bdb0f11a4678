// A formula in normal form; operands go by their numbers in the list of nodes.
ghost use Rattle.std.specs.Cmp.{IsPartialEquivalence};
ghost use Rattle.std.specs.Prelude.{◌≡◌, Decides};
ghost use Rattle.formulas.specs.declared.node.Node.{Node};
ghost use Rattle.formulas.specs.Same.{same_node};

#[derive(Clone, Copy, PartialEq, Eq)]
pub enum Node {
    True,
    False,
    // a signal that is wanted on or off
    Signal { index: u8, on: bool },
    And(u16, u16),
    Or(u16, u16),
    Next(u16),
    Until(u16, u16),
    Release(u16, u16),
}

// What is claimed of `==` on nodes: it is `same_node`, and says whether two nodes are equal.
pub fn is_same(node: &Node, other: &Node) -> bool
    ensures value { result ≡ same_node node.now other.now }
    ensures decides { Decides result (node.now ≡ other.now) }
    ensures equality { (x y : Node) → ⟦<Node as PartialEq>⟧.eq x y ≡ same_node x y }
    ensures laws { IsPartialEquivalence same_node }
{
    *node == *other
}

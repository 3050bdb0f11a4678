// Interning: each node is stored once, and goes by its number.
ghost use Rattle.std.specs.Prelude.{◌≡◌, ◌<◌, ◌≤◌, List, [], length, MatchOption};
ghost use Rattle.logic.specs.Formula.{Formula};
ghost use Rattle.formulas.specs.Nodes.{made_of, reach, signal_of};
ghost use Rattle.rules.specs.Nodes.{Interned, Lacks, Finds};
ghost use Rattle.rules.specs.Stored.{nodes_held, IsStored, Holds, Grown};

use crate::store::Store;
use fixed::FixedList;
use formulas::node::Node;

// The place of a node.
// Kept: one call of `position`, under the name and the fact that proofs go by; one function for all would be no plainer.
fn find(nodes: &[Node], node: Node) -> Option<usize>
    ensures { MatchOption result (Lacks nodes.now node) (Finds nodes.now node) }
{
    nodes.iter().position(|stored| *stored == node)
}

impl Store {
    // No formulas.
    pub fn blank() -> Store
        ensures { nodes_held result ≡ [] }
    {
        Store {
            nodes: FixedList::new(Node::True),
        }
    }

    // The number of `node`, which is added where it is new; none where it is new and the store is full.
    pub fn intern(&mut self, node: Node) -> Option<u16>
        requires before { reach node ≤ length (nodes_held self.old) }
        requires signal { signal_of node < 8 }
        ensures within { IsStored self.new result }
        ensures longer { Grown self.old self.new }
        ensures interned { (gs : List Formula) → Holds self.old gs → reach node ≤ length (nodes_held self.old) → Interned gs (made_of gs node) result (nodes_held self.new) }
    {
        if let Some(place) = find(self.nodes.as_slice(), node) {
            return Some(place as u16);
        }
        let place = self.nodes.push(node)?;
        Some(place as u16)
    }
}

// Which nodes stand under a root, and which of them are kept of it.
ghost use Rattle.std.specs.Prelude.{◌≡◌, ◌<◌, ◌≤◌, length, Decides, MatchOption};
ghost use Rattle.fixed.specs.Held.{held};
ghost use Rattle.formulas.specs.Nodes.{Topological, Placed};
ghost use Rattle.formulas.specs.Marks.{mark_parts, mark_kept, Marked, Picked, Beyond};

use crate::node::Node;
use fixed::FixedList;

// Whether the operands of node k have smaller numbers, and its signal is one of eight.
fn is_placed(node: Node, k: usize) -> bool
    ensures { Decides result (Placed k node) }
{
    match node {
        Node::True | Node::False => true,
        Node::Signal { index, .. } => index < 8,
        Node::Next(a) => (a as usize) < k,
        Node::And(a, b) | Node::Or(a, b) | Node::Until(a, b) | Node::Release(a, b) => {
            (a as usize) < k && (b as usize) < k
        }
    }
}

// Whether there are at most 256 nodes, operands before what they are operands of.
pub(crate) fn is_topological(nodes: &[Node]) -> bool
    ensures { Decides result (Topological nodes.now) }
{
    nodes.len() <= 256
        && nodes
            .iter()
            .enumerate()
            .all(|(k, node)| is_placed(*node, k))
}

// Marks the parts of a node, and what it keeps.
fn mark_node(node: Node, k: usize, under: &mut [bool; 256], flags: &mut [bool; 256])
    requires placed { Placed k node }
    requires few { k < 256 }
    ensures under { under.new ≡ mark_parts under.old node }
    ensures flags { flags.new ≡ mark_kept k flags.old node }
{
    match node {
        Node::True | Node::False | Node::Signal { .. } => {}
        Node::And(a, b) | Node::Or(a, b) => {
            under[a as usize] = true;
            under[b as usize] = true;
        }
        Node::Next(a) => {
            under[a as usize] = true;
            flags[k] = true;
            flags[a as usize] = true;
        }
        Node::Until(a, b) | Node::Release(a, b) => {
            under[a as usize] = true;
            under[b as usize] = true;
            flags[k] = true;
        }
    }
}

// The marks of the nodes that are kept of a root.
// Kept: `under` and `flags` are two sets of nodes, written apart; one array of pairs would be written half by half.
pub(crate) fn mark(nodes: &[Node], root: usize) -> [bool; 256]
    requires ordered { Topological nodes.now }
    requires root { root < length nodes.now }
    ensures { Marked nodes.now root result }
{
    let mut under = [false; 256];
    let mut flags = [false; 256];
    under[root] = true;
    flags[root] = true;
    for (k, node) in nodes.iter().enumerate().rev() {
        if under[k] {
            mark_node(*node, k, &mut under, &mut flags);
        }
    }
    flags
}

// The marked numbers below n, rising; none where there are more than 32.
pub(crate) fn pick(flags: &[bool; 256], n: usize) -> Option<FixedList<u16, 32>>
    requires { n ≤ 256 }
    ensures { MatchOption result (Beyond flags.now) (λ l. Picked flags.now n (held l)) }
{
    let mut numbers = FixedList::new(0);
    for (k, flag) in flags[..n].iter().enumerate() {
        if *flag {
            numbers.push(k as u16)?;
        }
    }
    Some(numbers)
}

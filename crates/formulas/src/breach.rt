// The breach formula of a rule, ready for labels.
ghost use Rattle.std.specs.Prelude.{◌≡◌, ℕ, ◌<◌, length, MatchOption, slice_index};
ghost use Rattle.fixed.specs.Held.{held};
ghost use Rattle.formulas.specs.Nodes.{Topological, OperandsFirst, SignalsSmall};
ghost use Rattle.formulas.specs.Keeps.{Keeps};
ghost use Rattle.formulas.specs.Values.{AllBefore, label_in};
ghost use Rattle.formulas.specs.Marks.{ManyKept};

use crate::labels::{all_words, gather, spread};
use crate::marks::{is_topological, mark, pick};
use crate::node::Node;
use fixed::FixedList;

// A copy of the nodes that it stands among, its number there, and the numbers of its kept formulas, rising.
#[derive(Clone, Copy)]
pub struct BreachFormula {
    nodes: FixedList<Node, 256>,
    root: u16,
    kept: FixedList<u16, 32>,
    ghost ordered: { OperandsFirst (held nodes) },
    ghost signals: { SignalsSmall (held nodes) },
    ghost rooted: { root < length (held nodes) },
    ghost below: { (j : ℕ) → j < length (held kept) → slice_index (held kept) j < length (held nodes) },
    ghost keeps: { ∥ Keeps (held nodes) root (held kept) ∥₁ },
}

impl BreachFormula {
    // The formula with number `root`. None where the nodes are not in order, have no such number, or more than 32 formulas are kept.
    pub fn of(nodes: &[Node], root: u16) -> Option<BreachFormula>
        ensures { MatchOption result (Topological nodes.now → root < length nodes.now → ManyKept nodes.now root) (λ b. (held b.nodes ≡ nodes.now) × (b.root ≡ root)) }
    {
        if !is_topological(nodes) || root as usize >= nodes.len() {
            return None;
        }
        let flags = mark(nodes, root as usize);
        let kept = pick(&flags, nodes.len())?;
        let nodes = FixedList::from_slice(Node::True, nodes)?;
        Some(BreachFormula { nodes, root, kept })
    }

    // What all letters in front make of a label: the values of the kept formulas, 64 letters to a word.
    pub fn words_before(&self, label: u32) -> [[u64; 32]; 4]
        ensures { AllBefore (held self.now.nodes) (held self.now.kept) label result }
    {
        let kept = self.kept.as_slice();
        let was = spread(kept, label);
        all_words(self.nodes.as_slice(), kept, &was)
    }

    // The label of a word with a letter in front, from what all letters make of it.
    pub fn label_by(&self, words: &[[u64; 32]; 4], letter: u8) -> u32
        ensures { result ≡ label_in (length (held self.now.kept)) words.now letter }
    {
        let letter = letter as usize;
        let group = &words[letter / 64];
        gather(&group[..self.kept.len()], letter % 64)
    }

    // The place of the formula itself among its kept formulas.
    pub fn root_place(&self) -> usize
        ensures within { result < length (held self.now.kept) }
        ensures is { slice_index (held self.now.kept) result ≡ self.now.root }
    {
        place_in(self.kept.as_slice(), self.root).unwrap()
    }
}

// A place of a number in a list.
// Kept: one call of `position`, under the name and the fact that proofs go by; one function for all would be no plainer.
fn place_in(numbers: &[u16], number: u16) -> Option<usize>
    ensures { MatchOption result ((j : ℕ) → j < length numbers.now → slice_index numbers.now j ≡ number → ⊥) (λ j. (j < length numbers.now) × (slice_index numbers.now j ≡ number)) }
{
    numbers.iter().position(|x| *x == number)
}

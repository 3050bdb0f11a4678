// The labels of a word with one letter more in front, for all letters: 64 letters are a group, and a word of 64 bits says something of each.
ghost use Rattle.std.specs.Prelude.{◌≡◌, ℕ, ◌+◌, ◌*◌, ◌<◌, ◌≤◌, [], map, take, length, slice_index, slice_index_or};
ghost use Rattle.std.specs.Bool.{beq};
ghost use Rattle.logic.specs.Formula.{on};
ghost use Rattle.logic.specs.Masks.{mask};
ghost use Rattle.formulas.specs.Nodes.{Topological, Placed};
ghost use Rattle.formulas.specs.Values.{value, Spread, column, GroupValued, KeptValued};

use crate::node::Node;

// The bits of a label, each at the number of its node.
pub(crate) fn spread(keep: &[u16], label: u32) -> [bool; 256]
    requires few { length keep.now ≤ 32 }
    requires below { (j : ℕ) → j < length keep.now → slice_index keep.now j < 256 }
    ensures { Spread keep.now (length keep.now) label result }
{
    let mut was = [false; 256];
    for (j, number) in keep.iter().enumerate() {
        was[*number as usize] = (label >> j) % 2 == 1;
    }
    was
}

// The same of all letters of a group.
fn everywhere(flag: bool) -> u64
    ensures { (b : ℕ) → b < 64 → on b result ≡ flag }
{
    if flag { u64::MAX } else { 0 }
}

// In which letters of a group a signal is on.
fn signal_word(index: u8, group: usize) -> u64
    requires signal { index < 8 }
    requires group { group < 4 }
    ensures { (b : ℕ) → b < 64 → on b result ≡ on index (group * 64 + b) }
{
    match index {
        0 => 0xAAAA_AAAA_AAAA_AAAA,
        1 => 0xCCCC_CCCC_CCCC_CCCC,
        2 => 0xF0F0_F0F0_F0F0_F0F0,
        3 => 0xFF00_FF00_FF00_FF00,
        4 => 0xFFFF_0000_FFFF_0000,
        5 => 0xFFFF_FFFF_0000_0000,
        6 => everywhere(group % 2 == 1),
        _ => everywhere(group / 2 == 1),
    }
}

// In which letters of a group a signal is as it is wanted.
fn wanted_word(index: u8, wanted: bool, group: usize) -> u64
    requires signal { index < 8 }
    requires group { group < 4 }
    ensures { (b : ℕ) → b < 64 → on b result ≡ beq (on index (group * 64 + b)) wanted }
{
    let word = signal_word(index, group);
    if wanted { word } else { !word }
}

// The value of one node for the letters of a group: whether each with what follows it is a breach of the node's formula.
fn value_of(node: Node, k: usize, group: usize, was: &[bool; 256], holds: &[u64; 256]) -> u64
    requires placed { Placed k node }
    requires few { k < 256 }
    requires group { group < 4 }
    ensures { (b : ℕ) → b < 64 → on b result ≡ value (group * 64 + b) was.now (column b holds.now) k node }
{
    match node {
        Node::True => u64::MAX,
        Node::False => 0,
        Node::Signal { index, on } => wanted_word(index, on, group),
        Node::And(a, b) => holds[a as usize] & holds[b as usize],
        Node::Or(a, b) => holds[a as usize] | holds[b as usize],
        Node::Next(a) => everywhere(was[a as usize]),
        Node::Until(a, b) => holds[b as usize] | (holds[a as usize] & everywhere(was[k])),
        Node::Release(a, b) => holds[b as usize] & (holds[a as usize] | everywhere(was[k])),
    }
}

// The values of all nodes for the letters of a group, operands first.
fn values(nodes: &[Node], group: usize, was: &[bool; 256]) -> [u64; 256]
    requires ordered { Topological nodes.now }
    requires group { group < 4 }
    ensures { GroupValued nodes.now group was.now (length nodes.now) result }
{
    let mut holds = [0u64; 256];
    for (k, node) in nodes.iter().enumerate() {
        holds[k] = value_of(*node, k, group, was, &holds);
    }
    holds
}

// The values of the kept nodes alone, in their order.
fn kept_words(keep: &[u16], holds: &[u64; 256]) -> [u64; 32]
    requires few { length keep.now ≤ 32 }
    requires below { (j : ℕ) → j < length keep.now → slice_index keep.now j < 256 }
    ensures { take (length keep.now) result ≡ map (λ k. slice_index holds.now k) keep.now }
{
    let mut words = [0u64; 32];
    for (j, number) in keep.iter().enumerate() {
        words[j] = holds[*number as usize];
    }
    words
}

// The values of the kept nodes for the letters of each group, from what is so after the letters.
pub(crate) fn all_words(nodes: &[Node], keep: &[u16], was: &[bool; 256]) -> [[u64; 32]; 4]
    requires ordered { Topological nodes.now }
    requires few { length keep.now ≤ 32 }
    requires below { (j : ℕ) → j < length keep.now → slice_index keep.now j < 256 }
    ensures { (g : ℕ) → g < 4 → KeptValued nodes.now keep.now g was.now (slice_index_or result g []) }
{
    let mut groups = [[0u64; 32]; 4];
    for group in 0..4 {
        groups[group] = kept_words(keep, &values(nodes, group, was));
    }
    groups
}

// The label of what holds for letter b of a group.
pub(crate) fn gather(words: &[u64], b: usize) -> u32
    requires few { length words.now ≤ 32 }
    requires letter { b < 64 }
    ensures { result ≡ mask (column b words.now) }
{
    let mut label = 0u32;
    for word in words.iter().rev() {
        label = label * 2 + ((*word >> b) % 2) as u32;
    }
    label
}

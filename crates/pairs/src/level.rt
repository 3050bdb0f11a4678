// How trying the starts, and leaving entries, ends: with a breach, or with none.
use std::ops::ControlFlow;

// A step that ends a breach: the entry that it leaves, and the state that it leads to.
#[derive(Clone, Copy)]
pub struct LastStep {
    pub entry: usize,
    pub state: usize,
}

// What trying the starts came to: it breaks with a start that is itself a breach.
pub type Tried = ControlFlow<usize>;

// What leaving entries came to: it breaks with a step that ends a breach.
pub type Found = ControlFlow<LastStep>;

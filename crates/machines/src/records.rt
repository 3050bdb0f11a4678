// The records that a table keeps in its two areas.

// A state: whether it is a start, its letter, and where its steps stand: `step_count` records from `first_step` on.
// Apart from that, record k keeps in `nth_start` the number of the k-th start.
// Kept: numbers lead to starts and steps, since both areas are lent, and each question is answered in constant time.
#[derive(Clone, Copy, Debug, PartialEq, Eq)]
pub struct State {
    pub(crate) start: bool,
    pub(crate) letter: u8,
    pub(crate) first_step: u16,
    pub(crate) step_count: u16,
    pub(crate) nth_start: u16,
}

impl State {
    // What an owner fills a new area with.
    pub const BLANK: State = State {
        start: false,
        letter: 0,
        first_step: 0,
        step_count: 0,
        nth_start: 0,
    };
}

// A step between two states.
#[derive(Clone, Copy, Debug, PartialEq, Eq)]
pub struct Step {
    pub(crate) from: u16,
    pub(crate) to: u16,
}

impl Step {
    pub const BLANK: Step = Step { from: 0, to: 0 };
}

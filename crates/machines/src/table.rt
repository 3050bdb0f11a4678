// The table: states and steps as listed line by line, in two lent areas, with every question answered in constant time.
ghost use Rattle.std.specs.Prelude.{◌≤◌, length};
ghost use Rattle.machines.specs.Rows.{Rows};

pub mod lines;
pub mod questions;

use crate::records::{State, Step};

// The first `state_count` records of one area and the first `step_count` of the other are the lines that it holds.
// Kept: both areas are lent, and three counts say what is used of the two.
#[derive(Drop)]
pub struct Table<'a> {
    states: &'a mut [State],
    steps: &'a mut [Step],
    state_count: usize,
    step_count: usize,
    start_count: usize,
    ghost states_within: { state_count ≤ length states.now },
    ghost states_few: { state_count ≤ 4096 },
    ghost steps_within: { step_count ≤ length steps.now },
    ghost steps_few: { step_count ≤ 16384 },
    ghost starts_within: { start_count ≤ state_count },
    ghost rows: { Rows states.now steps.now state_count step_count start_count },
}

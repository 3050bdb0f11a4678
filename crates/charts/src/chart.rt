// A chart: a deterministic automaton that recognizes the breaches of a rule, in areas that are lent to it.
mod blank;
mod filling;
mod questions;
mod watch;

ghost use Rattle.std.specs.Prelude.{◌*◌, ◌≤◌, length};
ghost use Rattle.charting.specs.Filled.{ClosedNext};
ghost use Rattle.charts.specs.Sound.{BlankOrWhole};
ghost use Rattle.charts.specs.Watch.{least, most};

use crate::state::State;

// The labels, the record of each standing (the automaton's states), and 256 next standings for each, one for each letter.
// Kept: the three areas are lent, by a rule of the project, and two counts say how much of them is filled.
#[derive(Drop)]
pub struct Chart<'a> {
    labels: &'a mut [u32],
    standings: &'a mut [[u64; 8]],
    next: &'a mut [u16],
    label_count: usize,
    standing_count: usize,
    state: State,
    ghost labelled: { label_count ≤ length labels.now },
    ghost stood: { standing_count ≤ length standings.now },
    ghost stepped: { standing_count * 256 ≤ length next.now },
    ghost closed: { ClosedNext next.now standing_count },
    ghost enough: { least state ≤ standing_count },
    ghost few: { standing_count ≤ most state },
    ghost whole: { BlankOrWhole labels.now label_count standings.now standing_count next.now state },
}

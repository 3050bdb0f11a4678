// Questions of an exploration that stay inside their ranges, so that each has an answer.
ghost use Rattle.std.specs.Prelude.{◌≡◌, ◌<◌, length, slice_index};
ghost use Rattle.pairs.specs.Stages.{bad};
ghost use Rattle.breaches.specs.Charts.{reader_of, standings_of};

use charts::chart::Chart;
use machines::machine::Machine;

// A machine that is explored by a filled chart.
// Kept: that a state is one of the machine's is asked in each contract, since it ties an argument to the machine, and no type holds both.
#[derive(Drop)]
pub(crate) struct Exploration<'a, M> {
    pub(crate) machine: &'a M,
    pub(crate) chart: &'a Chart<'a>,
    ghost filled: { 0 < standings_of chart.now },
}

impl<M: Machine> Exploration<'_, M> {
    // The k-th start.
    pub(crate) fn start(&self, k: usize) -> usize
        requires { k < length (M.Machine.meaning self.now.machine.now).starts }
        ensures value { result ≡ slice_index (M.Machine.meaning self.now.machine.now).starts k }
        ensures inside { result < (M.Machine.meaning self.now.machine.now).count }
    {
        self.machine.start(k).unwrap()
    }

    // How many steps a state has.
    pub(crate) fn step_count(&self, state: usize) -> usize
        requires { state < (M.Machine.meaning self.now.machine.now).count }
        ensures { result ≡ length ((M.Machine.meaning self.now.machine.now).steps state) }
    {
        self.machine.step_count(state).unwrap()
    }

    // The k-th step of a state.
    pub(crate) fn step(&self, state: usize, k: usize) -> usize
        requires state { state < (M.Machine.meaning self.now.machine.now).count }
        requires step { k < length ((M.Machine.meaning self.now.machine.now).steps state) }
        ensures value { result ≡ slice_index ((M.Machine.meaning self.now.machine.now).steps state) k }
        ensures inside { result < (M.Machine.meaning self.now.machine.now).count }
    {
        self.machine.step(state, k).unwrap()
    }

    // The standing after a walk with the pair of this state and standing.
    pub(crate) fn standing_after(&self, state: usize, standing: u16) -> u16
        requires state { state < (M.Machine.meaning self.now.machine.now).count }
        requires standing { standing < standings_of self.now.chart.now }
        ensures value { result ≡ (reader_of self.now.chart.now).next standing ((M.Machine.meaning self.now.machine.now).letter state) }
        ensures below { result < standings_of self.now.chart.now }
    {
        let letter = self.machine.letter(state).unwrap();
        self.chart.next(standing, letter).unwrap()
    }

    // Whether a walk with the pair of this state and standing is a breach.
    pub(crate) fn is_breach(&self, state: usize, standing: u16) -> bool
        requires state { state < (M.Machine.meaning self.now.machine.now).count }
        requires standing { standing < standings_of self.now.chart.now }
        ensures { result ≡ bad (M.Machine.meaning self.now.machine.now) (reader_of self.now.chart.now) state standing }
    {
        let after = self.standing_after(state, standing);
        self.chart.says_breach(after).unwrap()
    }
}

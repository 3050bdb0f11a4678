// A lent machine is a machine, so that layers also stand over machines that stay with the caller.
use crate::machine::Machine;

impl<M: Machine> Machine for &M {
    ghost meaning = { λ r. M.Machine.meaning r.now };

    ghost lawful = { λ r. M.Machine.lawful r.now };

    fn count(&self) -> usize {
        M::count(*self)
    }

    fn width(&self) -> usize {
        M::width(*self)
    }

    fn start_count(&self) -> usize {
        M::start_count(*self)
    }

    fn start(&self, k: usize) -> Option<usize> {
        M::start(*self, k)
    }

    fn letter(&self, s: usize) -> Option<u8> {
        M::letter(*self, s)
    }

    fn step_count(&self, s: usize) -> Option<usize> {
        M::step_count(*self, s)
    }

    fn step(&self, s: usize, k: usize) -> Option<usize> {
        M::step(*self, s, k)
    }
}

// A machine without states, where a list of calls may have one of the caller's: a log names tables and rounds alone.
ghost use Rattle.logs.specs.NoMachine.{no_meaning, no_laws};

use machines::machine::Machine;

#[derive(Clone, Copy)]
pub struct NoMachine;

impl Machine for NoMachine {
    ghost meaning = { no_meaning };

    ghost lawful = { no_laws };

    fn count(&self) -> usize {
        0
    }

    fn width(&self) -> usize {
        0
    }

    fn start_count(&self) -> usize {
        0
    }

    fn start(&self, _k: usize) -> Option<usize> {
        None
    }

    fn letter(&self, _s: usize) -> Option<u8> {
        None
    }

    fn step_count(&self, _s: usize) -> Option<usize> {
        None
    }

    fn step(&self, _s: usize, _k: usize) -> Option<usize> {
        None
    }
}

// A machine: finitely many states, numbered from 0, with starts, a letter for each state, and steps between states.
ghost use Rattle.std.specs.Prelude.{◌≡◌};
ghost use Rattle.meaning.specs.Machines.{Meaning, Lawful, asks_count, asks_width, asks_starts, asks_start, asks_letter, asks_steps, asks_step};

pub trait Machine {
    ghost meaning: { Self → Meaning };

    // What each machine proves of its own meaning.
    ghost lawful: { (m : Self) → Lawful (meaning m) };

    // How many states there are.
    fn count(&self) -> usize
        ensures { result ≡ asks_count (meaning self.now) };

    // A bound on the steps of one state.
    fn width(&self) -> usize
        ensures { result ≡ asks_width (meaning self.now) };

    fn start_count(&self) -> usize
        ensures { result ≡ asks_starts (meaning self.now) };

    // The k-th start.
    fn start(&self, k: usize) -> Option<usize>
        ensures { result ≡ asks_start (meaning self.now) k };

    fn letter(&self, s: usize) -> Option<u8>
        ensures { result ≡ asks_letter (meaning self.now) s };

    // How many steps state s has.
    fn step_count(&self, s: usize) -> Option<usize>
        ensures { result ≡ asks_steps (meaning self.now) s };

    // The state to which the k-th step of state s leads.
    fn step(&self, s: usize, k: usize) -> Option<usize>
        ensures { result ≡ asks_step (meaning self.now) s k };
}

// What a table answers: how many lines it holds, and the questions of a machine.
ghost use Rattle.std.specs.Prelude.{◌≡◌, ◌≤◌, length, Some, None, cond, nat_lt, option_map};
ghost use Rattle.meaning.specs.Kinds.{table_meaning};
ghost use Rattle.machines.specs.Held.{held_lines};
ghost use Rattle.machines.specs.Rows.{row};
ghost use Rattle.machines.specs.TableLaws.{tables_keep_laws};

use crate::machine::Machine;
use crate::records::State;
use crate::table::Table;

impl Table<'_> {
    // How many state lines it holds.
    pub fn states(&self) -> usize
        ensures number { result ≡ length (held_lines self.now).states }
        ensures few { result ≤ 4096 }
    {
        self.state_count
    }

    // How many step lines it holds.
    pub fn steps(&self) -> usize
        ensures number { result ≡ length (held_lines self.now).steps }
        ensures few { result ≤ 16384 }
    {
        self.step_count
    }

    // The record of state s.
    fn state(&self, s: usize) -> Option<&State>
        ensures { option_map (λ x. x.now) result ≡ cond (nat_lt s self.now.state_count) (Some (row self.now.states.now s)) None }
    {
        self.states[..self.state_count].get(s)
    }
}

impl Machine for Table<'_> {
    ghost meaning = { λ t. table_meaning (held_lines t) };

    ghost lawful = { λ t. tables_keep_laws t };

    fn count(&self) -> usize {
        self.states()
    }

    fn width(&self) -> usize {
        32768
    }

    fn start_count(&self) -> usize {
        self.start_count
    }

    fn start(&self, k: usize) -> Option<usize> {
        let state = self.states[..self.start_count].get(k)?;
        Some(usize::from(state.nth_start))
    }

    fn letter(&self, s: usize) -> Option<u8> {
        Some(self.state(s)?.letter)
    }

    fn step_count(&self, s: usize) -> Option<usize> {
        Some(usize::from(self.state(s)?.step_count))
    }

    fn step(&self, s: usize, k: usize) -> Option<usize> {
        let state = self.state(s)?;
        let first = usize::from(state.first_step);
        let steps = &self.steps[first..first + usize::from(state.step_count)];
        Some(usize::from(steps.get(k)?.to))
    }
}

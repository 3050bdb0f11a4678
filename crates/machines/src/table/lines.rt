// The lines of a table: how it begins, takes one line more, and is cleared.
ghost use Rattle.std.specs.Prelude.{◌≡◌, ◌<◌};
ghost use Rattle.meaning.specs.Files.{last_from};
ghost use Rattle.meaning.specs.Kinds.{no_lines};
ghost use Rattle.machines.specs.Rows.{stepped};
ghost use Rattle.machines.specs.Held.{held_lines, rooms_in, rooms_of, SameAreas, with_state, with_step, state_answer, step_answer, if_taken, IfRefused};

use crate::records::{State, Step};
use crate::table::Table;
use meaning::refusals::TableFault;

// The record of a state that gets one step more, at place `at`.
fn with_step(state: State, at: u16) -> State
    requires { state.step_count < 16384 }
    ensures { result ≡ stepped state at }
{
    State {
        first_step: if state.step_count == 0 {
            at
        } else {
            state.first_step
        },
        step_count: state.step_count + 1,
        ..state
    }
}

impl<'a> Table<'a> {
    pub fn new(states: &'a mut [State], steps: &'a mut [Step]) -> Self
        ensures lines { held_lines result ≡ no_lines }
        ensures rooms { rooms_of result ≡ rooms_in states.old steps.old }
        ensures states { result.states.ghost_name ≡ states.entry.ghost_name }
        ensures steps { result.steps.ghost_name ≡ steps.entry.ghost_name }
    {
        Table {
            states,
            steps,
            state_count: 0,
            step_count: 0,
            start_count: 0,
        }
    }

    pub fn clear(&mut self)
        ensures lines { held_lines self.new ≡ no_lines }
        ensures areas { SameAreas self.old self.new }
    {
        self.state_count = 0;
        self.step_count = 0;
        self.start_count = 0;
    }

    // The source of the last step, or 0.
    fn last_from(&self) -> usize
        ensures { result ≡ last_from (held_lines self.now).steps }
    {
        self.steps[..self.step_count]
            .last()
            .map_or(0, |step| usize::from(step.from))
    }

    // Takes the line of state `number`: that is the number of states so far.
    pub fn add_state(&mut self, number: usize, start: bool, letter: u8) -> Result<(), TableFault>
        ensures answer { result ≡ state_answer (rooms_of self.old) (held_lines self.old) number }
        ensures lines { held_lines self.new ≡ if_taken result (with_state (held_lines self.old) start letter) (held_lines self.old) }
        ensures refused { IfRefused result (self.new ≡ self.old) }
        ensures areas { SameAreas self.old self.new }
    {
        let at = self.state_count;
        if number != at {
            return Err(TableFault::Form);
        }
        if at >= self.states.len() || at >= 4096 {
            return Err(TableFault::NoRoom);
        }
        // this number counts only where the new state is a start; where all are starts, its place is that of the new state
        let nth = self.start_count;
        self.states[nth].nth_start = at as u16;
        self.states[at] = State {
            start,
            letter,
            nth_start: at as u16,
            ..State::BLANK
        };
        self.state_count = at + 1;
        self.start_count = nth + usize::from(start);
        Ok(())
    }

    // Takes the line of a step between declared states, whose source does not fall below the last one.
    pub fn add_step(&mut self, from: usize, to: usize) -> Result<(), TableFault>
        ensures answer { result ≡ step_answer (rooms_of self.old) (held_lines self.old) from to }
        ensures lines { held_lines self.new ≡ if_taken result (with_step (held_lines self.old) from to) (held_lines self.old) }
        ensures refused { IfRefused result (self.new ≡ self.old) }
        ensures areas { SameAreas self.old self.new }
    {
        let at = self.step_count;
        if from < self.last_from() || from >= self.state_count || to >= self.state_count {
            return Err(TableFault::Form);
        }
        if at >= self.steps.len() || at >= 16384 {
            return Err(TableFault::NoRoom);
        }
        let source = with_step(self.states[from], at as u16);
        self.steps[at] = Step {
            from: from as u16,
            to: to as u16,
        };
        self.states[from] = source;
        self.step_count = at + 1;
        Ok(())
    }
}

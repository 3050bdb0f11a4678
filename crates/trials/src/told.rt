// What a machine answers to its seven questions, as text.
use machines::machine::Machine;
use std::fmt;

// A number, or `-` where there is none.
#[derive(Clone, Copy)]
struct Number(Option<usize>);

impl fmt::Display for Number {
    fn fmt<W: fmt::Write>(&self, f: &mut fmt::Formatter<W>) -> fmt::Result {
        match self.0 {
            Some(number) => write!(f, "{number}"),
            None => f.write_str("-"),
        }
    }
}

// The start and the state of one number: the state's letter, how many steps it has, and those of the given numbers.
#[derive(Drop)]
struct AnswersAt<'a, M> {
    machine: &'a M,
    number: usize,
    steps: &'a [usize],
}

impl<M: Machine> fmt::Display for AnswersAt<'_, M> {
    fn fmt<W: fmt::Write>(&self, f: &mut fmt::Formatter<W>) -> fmt::Result {
        let number = self.number;
        let start = Number(self.machine.start(number));
        let letter = Number(self.machine.letter(number).map(usize::from));
        let steps = Number(self.machine.step_count(number));
        write!(
            f,
            "; {number}: start {start}, letter {letter}, steps {steps}:"
        )?;
        for k in self.steps {
            write!(f, " {}", Number(self.machine.step(number, *k)))?;
        }
        Ok(())
    }
}

// Asks a machine for its three counts, for the starts and states of the given numbers, and for their steps of the given numbers.
#[derive(Drop)]
pub(crate) struct Asked<'a, M> {
    pub(crate) machine: &'a M,
    pub(crate) numbers: &'a [usize],
    pub(crate) steps: &'a [usize],
}

impl<M: Machine> fmt::Display for Asked<'_, M> {
    fn fmt<W: fmt::Write>(&self, f: &mut fmt::Formatter<W>) -> fmt::Result {
        let Asked {
            machine,
            numbers,
            steps,
        } = *self;
        let (count, width, starts) = (machine.count(), machine.width(), machine.start_count());
        write!(f, "count {count}, width {width}, starts {starts}")?;
        for number in numbers {
            let number = *number;
            write!(
                f,
                "{}",
                AnswersAt {
                    machine,
                    number,
                    steps
                }
            )?;
        }
        Ok(())
    }
}

// A machine without states has no answer to any question.
pub(crate) fn has_no_states<M: Machine>(machine: &M) -> bool {
    machine.count() == 0
        && machine.start_count() == 0
        && machine.start(0).is_none()
        && machine.letter(0).is_none()
        && machine.step_count(0).is_none()
        && machine.step(0, 0).is_none()
}

// Breaches of tables and rounds, under up to three stuck layers, with a given pair room.
use crate::areas::Areas;
use crate::machine::{add_states, add_steps, bytes_of};
use crate::sheets::{field, fill};
use breaches::find::find_breach;
use charts::chart::Chart;
use machines::machine::Machine;
use machines::records::{State, Step};
use machines::round::Round;
use machines::stuck::StuckLayer;
use machines::table::Table;
use meaning::answers::Verdict;
use meaning::refusals::{Refusal, SearchingFault};
use pairs::pair::Pair;
use std::alloc::Global;
use std::fmt;

// An answer, as it is written in a line.
#[derive(Clone, Copy)]
struct Answer(Result<Verdict, SearchingFault>);

impl fmt::Display for Answer {
    fn fmt<W: fmt::Write>(&self, f: &mut fmt::Formatter<W>) -> fmt::Result {
        match self.0 {
            Ok(Verdict::Shown { states }) => write!(f, "shown {states}"),
            Ok(Verdict::Clear { pairs }) => write!(f, "clear {pairs}"),
            Err(fault) => {
                let number = fault.number();
                write!(f, "refused {number}")
            }
        }
    }
}

// What a line asks of its machine: whether it breaks the chart's rule under stuck layers for these signals, with room for so many pairs.
#[derive(Clone, Copy)]
struct Question<'a> {
    heap: Global,
    chart: &'a Chart<'a>,
    signals: &'a [u8],
    room: usize,
}

impl Question<'_> {
    // Looks with room for at most 1,000 pairs, and a walk area longer by one.
    fn look<M: Machine>(&self, machine: &M) -> Answer {
        let room = self.room.min(1000);
        let mut pairs = [Pair::BLANK; 1000];
        let mut walk = [0; 1001];
        Answer(find_breach(
            self.chart,
            machine,
            &mut pairs[..room],
            &mut walk[..room + 1],
        ))
    }

    // Looks under the stuck layers, the lowest signal first.
    // Kept: one arm for each height, since a recursion over `&dyn Machine` gets no proof, and one over a type parameter has no last type.
    fn look_under_layers<M: Machine>(&self, machine: &M) -> Answer {
        match self.signals {
            [] => self.look(machine),
            [a] => self.look(&StuckLayer::new(machine, *a)),
            [a, b] => self.look(&StuckLayer::new(StuckLayer::new(machine, *a), *b)),
            [a, b, c, ..] => self.look(&StuckLayer::new(
                StuckLayer::new(StuckLayer::new(machine, *a), *b),
                *c,
            )),
        }
    }

    fn of_round(&self, letters: &str) -> anyhow::Result<Answer> {
        let letters = bytes_of(self.heap, letters, '/')?;
        Ok(self.look_under_layers(&Round::new(letters.as_slice())))
    }

    fn of_table(&self, states: &str, steps: &str) -> anyhow::Result<Answer> {
        let mut states_area = [State::BLANK; 256];
        let mut steps_area = [Step::BLANK; 1024];
        let mut table = Table::new(&mut states_area, &mut steps_area);
        add_states(&mut table, states)?;
        add_steps(&mut table, steps)?;
        Ok(self.look_under_layers(&table))
    }

    // The answer over the machine of a line: `round LETTERS`, or `table STATES STEPS`. What follows is not read.
    fn of_machine(&self, machine: &str) -> anyhow::Result<Answer> {
        let mut words = machine.split(' ').skip(1);
        let first = words.next().unwrap_or("");
        if machine.starts_with("round") {
            return self.of_round(first);
        }
        self.of_table(first, words.next().unwrap_or(""))
    }
}

// The answer over the machine of a line, under its signals and with its room.
fn answer_of(heap: Global, chart: &Chart, line: &str) -> anyhow::Result<Answer> {
    let signals = bytes_of(heap, field(line, 3), ',')?;
    let question = Question {
        heap,
        chart,
        signals: signals.as_slice(),
        room: field(line, 4).parse()?,
    };
    question.of_machine(field(line, 2))
}

pub(crate) fn passes(heap: Global, line: &str) -> anyhow::Result<bool> {
    let mut areas = Areas::new();
    let mut chart = areas.chart();
    if fill(&mut chart, line)?.is_none() {
        return Ok(false);
    }
    let answer = answer_of(heap, &chart, line)?;
    let text = format!(in heap; "{answer}")?;
    Ok(text.as_str() == field(line, 5))
}

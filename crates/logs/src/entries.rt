// The lines of a log, one after another.
ghost use Rattle.std.specs.Prelude.{◌≡◌, List, Option as Maybe, IfOk, [], ◌∷◌, ◌++◌};
ghost use Rattle.logs.specs.Told.{Told, lines_told, call as call_of};
ghost use Rattle.logs.specs.Replays.{HoldsLines};

use crate::machine::NoMachine;
use crate::reading::read_call;
use crate::unread::Unread;
use lines::cut;
use replay::call::Call;
use std::alloc::{AllocError, Global};

// The calls of a log, and for each line the number of its call.
#[derive(Drop)]
pub(crate) struct Log {
    pub(crate) numbers: Vec<Option<usize>>,
    pub(crate) calls: Vec<Call<NoMachine>>,
}

impl Log {
    // Adds a line.
    fn add(&mut self, heap: Global, line: &[u8]) -> Result<(), AllocError>
        ensures { (ts : List (Maybe Told)) → HoldsLines ts self.old.numbers.items self.old.calls.items → IfOk result (λ _. HoldsLines (ts ++ (call_of line.now ∷ [])) self.new.numbers.items self.new.calls.items) }
    {
        let number = self.calls.len();
        match read_call(heap, line) {
            Ok(call) => {
                self.calls.push(call)?;
                self.numbers.push(Some(number))?;
                Ok(())
            }
            Err(unread) => self.add_unread(unread),
        }
    }

    // Adds a line of no form.
    fn add_unread(&mut self, unread: Unread) -> Result<(), AllocError>
        ensures { IfOk result (λ _. (unread ≡ Unread.NoForm) × (self.new.numbers.items ≡ self.old.numbers.items ++ (None ∷ [])) × (self.new.calls.items ≡ self.old.calls.items)) }
    {
        match unread {
            Unread::NoForm => {
                self.numbers.push(None)?;
                Ok(())
            }
            Unread::NoMemory => Err(AllocError),
        }
    }
}

// Reads a log.
pub(crate) fn read_log(heap: Global, text: &[u8]) -> Result<Log, AllocError>
    ensures { IfOk result (λ l. HoldsLines (lines_told text.now) l.numbers.items l.calls.items) }
{
    let mut log = Log {
        numbers: Vec::new(heap),
        calls: Vec::new(heap),
    };
    let mut rest = text;
    while let Some((line, more)) = cut(rest, b'\n') {
        log.add(heap, line)?;
        rest = more;
    }
    if rest.is_empty() {
        return Ok(log);
    }
    log.add(heap, rest)?;
    Ok(log)
}

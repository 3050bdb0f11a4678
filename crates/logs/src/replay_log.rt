// A log in, the answers to its calls out.
ghost use Rattle.std.specs.Prelude.{IfOk, string_bytes};
ghost use Rattle.logs.specs.Replays.{PrintsAnswers};

use crate::answers::answer_all;
use crate::entries::read_log;
use crate::writing::write_lines;
use std::alloc::{AllocError, Global};

// Plays a log back on two new sheets, tables and charts: what is printed for it.
pub fn replay_log(heap: Global, log: &[u8]) -> Result<String, AllocError>
    ensures prints { IfOk result (λ s. PrintsAnswers log.now (string_bytes s)) }
{
    let read = read_log(heap, log)?;
    let answers = answer_all(heap, read.calls.as_slice())?;
    write_lines(heap, read.numbers.as_slice(), answers.as_slice())
}

// The answers of a log as text.
ghost use Rattle.std.specs.Prelude.{◌≡◌, ◌++◌, IfOk, string_bytes};
ghost use Rattle.logs.specs.Written.{answer_line, written};

use replay::answer::Answer;
use std::alloc::{AllocError, Global};
use std::fmt::Write;

// The line of a call by its number; a line of no form has none.
fn write_line(
    text: &mut String,
    number: Option<usize>,
    answers: &[Answer],
) -> Result<(), AllocError>
    ensures { IfOk result (λ _. string_bytes text.new ≡ string_bytes text.old ++ answer_line answers.now number) }
{
    match number.and_then(|k| answers.get(k)) {
        Some(answer) => writeln!(text, "{answer}"),
        None => writeln!(text, "no form"),
    }
}

// A line for each line.
pub(crate) fn write_lines(
    heap: Global,
    numbers: &[Option<usize>],
    answers: &[Answer],
) -> Result<String, AllocError>
    ensures { IfOk result (λ s. string_bytes s ≡ written answers.now numbers.now) }
{
    let mut text = String::new(heap);
    for number in numbers {
        write_line(&mut text, *number, answers)?;
    }
    Ok(text)
}

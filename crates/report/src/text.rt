// The lines that are printed.
ghost use Rattle.std.specs.Prelude.{◌≡◌, Some, ◌++◌, length, codes, IfOk, string_bytes};
ghost use Rattle.std.specs.Fmt.{WritesOnOk};
ghost use Rattle.meaning.specs.Printed.{field, fields, fault_line, rule_line, rule_text};
ghost use Rattle.report.specs.Said.{said_text};

use meaning::refusals::FileFault;
use std::alloc::{AllocError, Global};
use std::fmt;
use std::fmt::Write;

// The one line of a refused file.
pub(crate) fn fault_line(heap: Global, refused: FileFault) -> Result<String, AllocError>
    ensures { IfOk result (λ s. string_bytes s ≡ fault_line refused) }
{
    format!(in heap; "{refused}\n")
}

// What is said of a rule: the walk that breaks it, or of how many pairs it is clear, or the number of the refusal.
// Kept: the refusals of two kinds of calls end here, and only their number is printed.
#[derive(Clone, Copy)]
pub(crate) enum Said<'a> {
    Broken(&'a [usize]),
    Clear(usize),
    Refused(u8),
}

// What is said of which rule.
#[derive(Clone, Copy)]
pub(crate) struct RuleLine<'a> {
    pub(crate) rule: usize,
    pub(crate) said: Said<'a>,
}

impl RuleLine<'_> {
    // Writes the line behind a text.
    pub(crate) fn write_to(&self, text: &mut String) -> Result<(), AllocError>
        ensures { IfOk result (λ _. string_bytes text.new ≡ string_bytes text.old ++ rule_line self.now.rule (said_text self.now.said)) }
    {
        writeln!(text, "{self}")
    }
}

impl fmt::Display for RuleLine<'_> {
    ghost output = { λ x. Some (rule_text x.rule (said_text x.said)) };

    fn fmt<W: fmt::Write>(&self, f: &mut fmt::Formatter<W>) -> fmt::Result {
        let rule = self.rule;
        match self.said {
            Said::Broken(walk) => write_broken(f, rule, walk),
            Said::Clear(pairs) => write!(f, "rule,{rule},clear,{pairs}"),
            Said::Refused(number) => write!(f, "rule,{rule},refused,{number}"),
        }
    }
}

// Writes that a walk breaks the rule.
fn write_broken<W: fmt::Write>(
    f: &mut fmt::Formatter<W>,
    rule: usize,
    walk: &[usize],
) -> fmt::Result
    ensures { WritesOnOk W.write_str_gives f.old result (rule_text rule (codes ",broken" ++ (field (length walk.now) ++ fields walk.now))) f.new }
{
    let states = walk.len();
    write!(f, "rule,{rule},broken,{states}")?;
    for state in walk {
        write!(f, ",{state}")?;
    }
    Ok(())
}

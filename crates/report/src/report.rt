// The report of a file: a loading, and for each rule a filling and a look for breaches.
ghost use Rattle.std.specs.Prelude.{◌≡◌, ◌<◌, length, IfOk, OnOk, string_bytes};
ghost use Rattle.meaning.specs.declared.refusals.LineFault.TheVariants.{Table as Table-fault};
ghost use Rattle.meaning.specs.declared.refusals.TableFault.TheVariants.{NoRoom};
ghost use Rattle.meaning.specs.Printed.{fault_line, Prints};
ghost use Rattle.report.specs.Reported.{GrownBy, VerdictLed, RuleLed, PrintsShort};

use crate::text::{RuleLine, Said, fault_line};
use breaches::find::find_breach;
use charts::chart::Chart;
use loading::load::load;
use machines::records::{State, Step};
use machines::table::Table;
use meaning::answers::Verdict;
use meaning::refusals::{FileFault, LineFault, Refusal, TableFault};
use pairs::pair::Pair;
use rules::sheet::Sheet;
use std::alloc::{AllocError, Global};

// How long a file may be.
const FILE_ROOM: usize = 8192;

// Writes the line of a rule with a filled chart.
fn write_look(
    text: &mut String,
    heap: Global,
    rule: usize,
    chart: &Chart,
    table: &Table,
) -> Result<(), AllocError>
    ensures { OnOk result (GrownBy (string_bytes text.old) (string_bytes text.new) (VerdictLed chart.now table.now rule)) }
{
    let mut pairs = vec![in heap; Pair::BLANK; 1024]?;
    let mut walk = vec![in heap; 0; 1025]?;
    let said = match find_breach(chart, table, pairs.as_mut_slice(), walk.as_mut_slice()) {
        Ok(Verdict::Shown { states }) => Said::Broken(&walk[..states]),
        Ok(Verdict::Clear { pairs }) => Said::Clear(pairs),
        Err(fault) => Said::Refused(fault.number()),
    };
    RuleLine { rule, said }.write_to(text)
}

// Writes the line of a rule: a new chart is filled with it and, if that is accepted, the table is asked for a breach.
fn write_rule(
    text: &mut String,
    heap: Global,
    sheet: &Sheet,
    table: &Table,
    rule: usize,
) -> Result<(), AllocError>
    ensures { OnOk result (GrownBy (string_bytes text.old) (string_bytes text.new) (RuleLed sheet.now table.now rule)) }
{
    let mut labels = vec![in heap; 0; 512]?;
    let mut standings = vec![in heap; [0; 8]; 32]?;
    let mut next = vec![in heap; 0; 8192]?;
    let mut chart = Chart::new(
        labels.as_mut_slice(),
        standings.as_mut_slice(),
        next.as_mut_slice(),
    );
    match chart.fill(sheet, rule) {
        Ok(_) => write_look(text, heap, rule, &chart, table),
        Err(fault) => {
            let said = Said::Refused(fault.number());
            RuleLine { rule, said }.write_to(text)
        }
    }
}

// The report of a file that is not too long: the lines of its rules, or the one line that refuses it.
fn report_short(heap: Global, file: &[u8]) -> Result<String, AllocError>
    ensures { IfOk result (λ s. PrintsShort file.now (string_bytes s)) }
{
    let mut states = vec![in heap; State::BLANK; 256]?;
    let mut steps = vec![in heap; Step::BLANK; 1024]?;
    let mut sheet = Sheet::new();
    let mut table = Table::new(states.as_mut_slice(), steps.as_mut_slice());
    if let Err(fault) = load(&mut sheet, &mut table, file) {
        return fault_line(heap, fault);
    }
    let mut text = String::new(heap);
    for rule in 0..sheet.rule_count() {
        write_rule(&mut text, heap, &sheet, &table, rule)?;
    }
    Ok(text)
}

// What the program prints for a file.
pub fn report(heap: Global, file: &[u8]) -> Result<String, AllocError>
    ensures long { IfOk result (λ s. 8192 < length file.now → string_bytes s ≡ fault_line (record { line = 0; fault = Table-fault NoRoom })) }
    ensures prints { IfOk result (λ s. Prints file.now (string_bytes s)) }
{
    if file.len() > FILE_ROOM {
        let fault = FileFault {
            line: 0,
            fault: LineFault::Table(TableFault::NoRoom),
        };
        return fault_line(heap, fault);
    }
    report_short(heap, file)
}

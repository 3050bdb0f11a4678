// One line of a file, taken by the layer that it belongs to.
ghost use Rattle.std.specs.Prelude.{◌≡◌, true, []};
ghost use Rattle.meaning.specs.Kinds.{Lines, no_lines};
ghost use Rattle.meaning.specs.Files.{Content, Rooms, rule, state, step, ended, formed, nothing, lines_in};
ghost use Rattle.machines.specs.Held.{held_lines, rooms_of, SameAreas};
ghost use Rattle.rules.specs.Led.{SheetIs};
ghost use Rattle.loading.specs.Takes.{Holds, Takes, TakesOnSheet, TakesOnTable};

use lines::{Entry, read};
use machines::table::Table;
use meaning::refusals::{LineFault, TableFault};
use rules::sheet::Sheet;

// The first line, which gives the names.
pub(crate) fn take_first(sheet: &mut Sheet, line: &[u8]) -> Result<(), LineFault>
    ensures { (q : Rooms) (ls : Lines) → ls ≡ no_lines → Takes q nothing (formed nothing (ended line.now)) result sheet.new ls }
{
    match read(line).ok_or(TableFault::Form)? {
        Entry::Signals(names) => Ok(sheet.open(names)?),
        _ => Err(LineFault::Table(TableFault::Form)),
    }
}

fn take_rule(sheet: &mut Sheet, table: &Table, text: &[u8]) -> Result<(), LineFault>
    ensures { (q : Rooms) (c : Content) → SheetIs c.names c.rules sheet.old → held_lines table.now ≡ lines_in c → true ≡ c.opened → TakesOnSheet q c (rule text.now) result sheet.new }
{
    if table.states() > 0 || table.steps() > 0 {
        return Err(LineFault::Table(TableFault::Form));
    }
    sheet.enter(text)?;
    Ok(())
}

fn take_state(table: &mut Table, number: u32, start: u32, letter: u32) -> Result<(), LineFault>
    ensures takes { (c : Content) → held_lines table.old ≡ lines_in c → true ≡ c.opened → TakesOnTable (rooms_of table.old) c (state number start letter) result (held_lines table.new) }
    ensures areas { SameAreas table.old table.new }
{
    if table.steps() > 0 || start > 1 || letter > 255 {
        return Err(LineFault::Table(TableFault::Form));
    }
    Ok(table.add_state(number as usize, start == 1, letter as u8)?)
}

fn take_step(table: &mut Table, from: u32, to: u32) -> Result<(), LineFault>
    ensures takes { (c : Content) → held_lines table.old ≡ lines_in c → true ≡ c.opened → TakesOnTable (rooms_of table.old) c (step «from» to) result (held_lines table.new) }
    ensures areas { SameAreas table.old table.new }
{
    Ok(table.add_step(from as usize, to as usize)?)
}

// Each line behind the first one.
pub(crate) fn take_line(sheet: &mut Sheet, table: &mut Table, line: &[u8]) -> Result<(), LineFault>
    ensures takes { (c : Content) → Holds sheet.old (held_lines table.old) true c → Takes (rooms_of table.old) c (formed c (ended line.now)) result sheet.new (held_lines table.new) }
    ensures areas { SameAreas table.old table.new }
{
    match read(line).ok_or(TableFault::Form)? {
        Entry::Signals(_) => Err(LineFault::Table(TableFault::Form)),
        Entry::Rule(text) => take_rule(sheet, table, text),
        Entry::State {
            number,
            start,
            letter,
        } => take_state(table, number, start, letter),
        Entry::Step { from, to } => take_step(table, from, to),
    }
}

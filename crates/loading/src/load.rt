// All lines of a file.
ghost use Rattle.std.specs.Prelude.{◌≡◌, OnOk};
ghost use Rattle.meaning.specs.declared.refusals.LineFault.TheVariants.{Table as Table-fault};
ghost use Rattle.meaning.specs.declared.refusals.TableFault.TheVariants.{Form};
ghost use Rattle.meaning.specs.Files.{RightLoading};
ghost use Rattle.machines.specs.Held.{held_lines, rooms_of, SameAreas};
ghost use Rattle.loading.specs.Loads.{with_line, Cleared, HasFile, Blank, Loaded};
ghost use Rattle.loading.specs.Led.{LedByLoading};

use crate::taking::{take_first, take_line};
use lines::cut;
use machines::table::Table;
use meaning::refusals::{FileFault, LineFault, TableFault};
use rules::sheet::Sheet;

// The fault of a line with its number.
fn at_line(line: usize, taken: Result<(), LineFault>) -> Result<(), FileFault>
    ensures { result ≡ with_line line taken }
{
    taken.map_err(|fault| FileFault { line, fault })
}

// A line without its LF.
fn cut_off(line: usize) -> FileFault
    ensures { result ≡ record { line = line; fault = Table-fault Form } }
{
    FileFault {
        line,
        fault: LineFault::Table(TableFault::Form),
    }
}

// Takes the lines one after another, up to the first that is refused.
fn load_lines(sheet: &mut Sheet, table: &mut Table, file: &[u8]) -> Result<(), FileFault>
    ensures answer { Blank sheet.old (held_lines table.old) → RightLoading (rooms_of table.old) file.now result }
    ensures accepted { Blank sheet.old (held_lines table.old) → OnOk result (HasFile file.now sheet.new (held_lines table.new)) }
    ensures areas { SameAreas table.old table.new }
{
    let (first, rest) = cut(file, b'\n').ok_or(cut_off(1))?;
    at_line(1, take_first(sheet, first))?;
    // Line 1 is taken: the first piece of the rest, number 0, is line 2.
    for (n, piece) in rest.split_inclusive(|b| *b == b'\n').enumerate() {
        let line = n + 2;
        let text = piece.strip_suffix(b"\n").ok_or(cut_off(line))?;
        at_line(line, take_line(sheet, table, text))?;
    }
    Ok(())
}

// Loads a file; what the sheet and the table held before is dropped. A refusal leaves both blank.
pub fn load(sheet: &mut Sheet, table: &mut Table, file: &[u8]) -> Result<(), FileFault>
    ensures answer { RightLoading (rooms_of table.old) file.now result }
    ensures cleared { Cleared result sheet.new (held_lines table.new) }
    ensures loads { Loaded file.now result sheet.new (held_lines table.new) }
    ensures led { LedByLoading (rooms_of table.old) file.now result sheet.new table.new }
    ensures areas { SameAreas table.old table.new }
{
    sheet.clear();
    table.clear();
    let loaded = load_lines(sheet, table, file);
    if loaded.is_err() {
        sheet.clear();
        table.clear();
    }
    loaded
}

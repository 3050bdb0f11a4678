// One call of the list: made on the objects of its numbers, or answered by why it is not made.
ghost use Rattle.std.specs.Prelude.{List};
ghost use Rattle.machines.specs.declared.table.Table.{Table as TableIs};
ghost use Rattle.charts.specs.declared.chart.Chart.{Chart as ChartIs};
ghost use Rattle.rules.specs.declared.sheet.Sheet.{Sheet as SheetIs};
ghost use Rattle.replay.specs.Objects.{objects, lent};
ghost use Rattle.replay.specs.Meant.{opening_at, entering_at, loading_at, filling_at, beginning_at, scanning_at};
ghost use Rattle.replay.specs.Replayed.{StepLed};

use crate::answer::Answer;
use charts::chart::Chart;
use loading::load::load;
use machines::table::Table;
use rules::sheet::Sheet;

pub(crate) fn open(sheets: &mut [Sheet], sheet: usize, names: &[u8]) -> Answer
    ensures { (ts : List TableIs) (cs : List ChartIs) → let o = objects sheets.old ts cs in StepLed (opening_at (lent o) sheet names.now) result o (objects sheets.new ts cs) }
{
    if sheet >= sheets.len() {
        return Answer::NoSuchObject;
    }
    Answer::Opened(sheets[sheet].open(names))
}

pub(crate) fn enter(sheets: &mut [Sheet], sheet: usize, rule: &[u8]) -> Answer
    ensures { (ts : List TableIs) (cs : List ChartIs) → let o = objects sheets.old ts cs in StepLed (entering_at (lent o) sheet rule.now) result o (objects sheets.new ts cs) }
{
    if sheet >= sheets.len() {
        return Answer::NoSuchObject;
    }
    Answer::Entered(sheets[sheet].enter(rule))
}

pub(crate) fn load_file(
    sheets: &mut [Sheet],
    tables: &mut [Table],
    sheet: usize,
    table: usize,
    file: &[u8],
) -> Answer
    ensures { (cs : List ChartIs) → let o = objects sheets.old tables.old cs in StepLed (loading_at (lent o) sheet table file.now) result o (objects sheets.new tables.new cs) }
{
    if sheet >= sheets.len() || table >= tables.len() {
        return Answer::NoSuchObject;
    }
    Answer::Loaded(load(&mut sheets[sheet], &mut tables[table], file))
}

pub(crate) fn fill(
    charts: &mut [Chart],
    sheets: &[Sheet],
    chart: usize,
    sheet: usize,
    rule: usize,
) -> Answer
    ensures { (ts : List TableIs) → let o = objects sheets.now ts charts.old in StepLed (filling_at (lent o) chart sheet rule) result o (objects sheets.now ts charts.new) }
{
    if sheet >= sheets.len() || chart >= charts.len() {
        return Answer::NoSuchObject;
    }
    Answer::Filled(charts[chart].fill(&sheets[sheet], rule))
}

pub(crate) fn begin(charts: &mut [Chart], chart: usize) -> Answer
    ensures { (ss : List SheetIs) (ts : List TableIs) → let o = objects ss ts charts.old in StepLed (beginning_at (lent o) chart) result o (objects ss ts charts.new) }
{
    if chart >= charts.len() {
        return Answer::NoSuchObject;
    }
    Answer::Begun(charts[chart].begin())
}

pub(crate) fn scan(charts: &mut [Chart], chart: usize, letter: u8) -> Answer
    ensures { (ss : List SheetIs) (ts : List TableIs) → let o = objects ss ts charts.old in StepLed (scanning_at (lent o) chart letter) result o (objects ss ts charts.new) }
{
    if chart >= charts.len() {
        return Answer::NoSuchObject;
    }
    Answer::Scanned(charts[chart].scan(letter))
}

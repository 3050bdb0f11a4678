// What the tests share: a sheet, areas for charts, answers with the numbers of their refusals, and what is printed.
use charts::chart::Chart;
use meaning::refusals::Refusal;
use rules::sheet::Sheet;
use std::alloc::Global;
use std::fmt::Display;
use std::process::Abort;
use std::test::Fail;

// A sheet with the names `stop,full` and one rule.
pub(crate) fn sheet_of(rt: &impl Abort, rule: &[u8]) -> Sheet {
    let mut sheet = Sheet::new();
    assert_eq!(rt; numbered(sheet.open(b"stop,full")), Ok(()));
    assert_eq!(rt; numbered(sheet.enter(rule)), Ok(0));
    sheet
}

// Areas of so many labels, standings and next standings.
#[derive(Drop)]
pub(crate) struct Areas<const LABELS: usize, const STANDINGS: usize, const NEXT: usize> {
    labels: [u32; LABELS],
    standings: [[u64; 8]; STANDINGS],
    next: [u16; NEXT],
}

impl<const LABELS: usize, const STANDINGS: usize, const NEXT: usize> Areas<
    LABELS,
    STANDINGS,
    NEXT,
> {
    pub(crate) fn new() -> Self {
        Areas {
            labels: [0; LABELS],
            standings: [[0; 8]; STANDINGS],
            next: [0; NEXT],
        }
    }

    // A blank chart over the areas.
    pub(crate) fn chart(&mut self) -> Chart<'_> {
        Chart::new(&mut self.labels, &mut self.standings, &mut self.next)
    }
}

// The answer, with the number of the refusal for its fault.
pub(crate) fn numbered<T, F: Refusal>(answer: Result<T, F>) -> Result<T, u8> {
    answer.map_err(|fault| fault.number())
}

// A value that is printed so.
pub(crate) fn assert_prints<D: Display + Drop>(
    rt: &impl Abort,
    heap: Global,
    value: D,
    wanted: &str,
    why: &str,
) -> Result<(), Fail> {
    let text = format!(in heap; "{value}")?;
    assert_eq!(rt; text.as_str(), wanted, "{why}");
    Ok(())
}

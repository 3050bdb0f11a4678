// Filling, beginning and scanning.
use crate::areas::{Areas, numbered, sheet_of};
use charts::chart::Chart;
use meaning::answers::Scanned;
use rules::sheet::Sheet;
use std::process::Abort;

// A call on a chart: with the number of a rule, or a letter.
#[derive(Clone, Copy)]
enum Call {
    Fill(usize),
    Begin,
    Scan(u8),
}

fn word_of(scanned: Scanned) -> &'static str {
    match scanned {
        Scanned::GoingOn => "going on",
        Scanned::Broken => "broken",
    }
}

// Makes a call. Its answer is a word, or the number of a refusal.
fn make(chart: &mut Chart, sheet: &Sheet, call: Call) -> Result<&'static str, u8> {
    match call {
        Call::Fill(rule) => numbered(chart.fill(sheet, rule)).map(|_| "filled"),
        Call::Begin => numbered(chart.begin()).map(|()| "begun"),
        Call::Scan(letter) => numbered(chart.scan(letter)).map(word_of),
    }
}

// Makes calls that the chart is to answer so, for these reasons.
fn make_all(
    rt: &impl Abort,
    chart: &mut Chart,
    sheet: &Sheet,
    calls: &[(Call, Result<&str, u8>, &str)],
) {
    for (call, wanted, why) in calls {
        assert_eq!(rt; make(chart, sheet, *call), *wanted, "{why}");
    }
}

#[test]
fn a_filling_counts_and_refuses(rt: HostRuntime) {
    let mut areas = Areas::<8, 3, 768>::new();
    let mut chart = areas.chart();
    let on_new = [(Call::Fill(0), Err(8), "a new sheet has no rule")];
    make_all(&rt, &mut chart, &Sheet::new(), &on_new);
    let on_one = [
        (Call::Fill(1), Err(8), "the sheet has one rule"),
        (Call::Fill(0), Ok("filled"), "just enough room"),
    ];
    make_all(
        &rt,
        &mut chart,
        &sheet_of(&rt, b"G -> stop X ! full"),
        &on_one,
    );
    assert_eq!(rt; chart.standings(), 3);
}

// Rule 0 of the sheet fits the chart's areas, and rule 1 is refused with this number.
fn fill_too_little(rt: &impl Abort, chart: &mut Chart, sheet: &Sheet, number: u8) {
    let filling = [
        (Call::Fill(0), Ok("filled"), "room for the first rule"),
        (Call::Begin, Ok("begun"), "a chart that is filled"),
        (Call::Fill(1), Err(number), "too little room for the second"),
    ];
    make_all(rt, chart, sheet, &filling);
    assert!(rt; chart.is_blank());
    let after = [(Call::Scan(0), Err(11), "neither filling nor watch is left")];
    make_all(rt, chart, sheet, &after);
}

#[test]
fn too_little_room_blanks_the_chart(rt: HostRuntime) {
    let mut sheet = sheet_of(&rt, b"G ! & stop full");
    assert_eq!(rt; numbered(sheet.enter(b"G -> stop X ! full")), Ok(1));
    fill_too_little(&rt, &mut Areas::<7, 3, 768>::new().chart(), &sheet, 9);
    fill_too_little(&rt, &mut Areas::<8, 2, 768>::new().chart(), &sheet, 10);
    fill_too_little(&rt, &mut Areas::<8, 3, 767>::new().chart(), &sheet, 10);
}

#[test]
fn a_watch_goes_its_way(rt: HostRuntime) {
    let sheet = sheet_of(&rt, b"G -> stop X ! full");
    let mut areas = Areas::<8, 3, 768>::new();
    let calls = [
        (Call::Begin, Err(11), "a blank chart takes no beginning"),
        (Call::Scan(0), Err(11), "a blank chart takes no scan"),
        (Call::Fill(0), Ok("filled"), "room for the rule"),
        (Call::Scan(0), Err(12), "no watch is begun"),
        (Call::Begin, Ok("begun"), "a chart that is filled"),
        (Call::Scan(1), Ok("going on"), "the stop alone"),
        (Call::Scan(2), Ok("broken"), "full right after the stop"),
        (Call::Scan(0), Err(13), "the watch is broken"),
        (Call::Begin, Ok("begun"), "a broken watch starts over"),
        (Call::Scan(2), Ok("going on"), "full alone"),
        (Call::Fill(5), Err(8), "no rule 5"),
        (
            Call::Scan(0),
            Ok("going on"),
            "a filling refused by 8 leaves the watch",
        ),
    ];
    make_all(&rt, &mut areas.chart(), &sheet, &calls);
}

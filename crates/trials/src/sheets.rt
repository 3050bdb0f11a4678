// Names and rules that a sheet refuses: it is as it was.
use crate::areas::{numbered, sheet_of};
use meaning::refusals::Refusal;
use rules::sheet::Sheet;
use std::alloc::{AllocError, Global};
use std::process::Abort;
use std::test::Fail;

// Enters a rule. The sheet is to answer its number, or the refusal's layer, number and place; and then to have so many rules.
fn enter(
    rt: &impl Abort,
    sheet: &mut Sheet,
    rule: &str,
    wanted: Result<usize, (&str, u8, usize)>,
    rules: usize,
) {
    let answer = sheet
        .enter(rule.as_bytes())
        .map_err(|fault| (fault.layer(), fault.number(), fault.place()));
    assert_eq!(rt; (answer, sheet.rule_count()), (wanted, rules), "{rule}");
}

#[test]
fn a_sheet_refuses_names(rt: HostRuntime) -> Result<(), Fail> {
    let mut sheet = sheet_of(&rt, b"stop");
    for names in [
        "",
        "stop,stop",
        "true",
        "Stop",
        "converter",
        "a,b,c,d,e,f,g,h,i",
    ] {
        let answer = numbered(sheet.open(names.as_bytes()));
        assert_eq!(rt; (answer, sheet.rule_count()), (Err(1), 1), "{names}");
    }
    // The names stay.
    enter(&rt, &mut sheet, "full", Ok(1), 2);
    Ok(())
}

#[test]
fn a_sheet_refuses_rules(rt: HostRuntime) -> Result<(), Fail> {
    let mut sheet = sheet_of(&rt, b"stop");
    for (rule, layer, number, place) in [
        ("G doors", "rule", 2, 2),
        ("& stop", "rule", 3, 6),
        ("stop full", "rule", 4, 4),
        (
            "! ! ! ! ! ! ! ! ! ! ! ! ! ! ! ! ! ! ! ! ! ! ! ! ! ! ! ! ! ! ! ! ! stop",
            "rule",
            5,
            64,
        ),
        (
            "& X X X X X X X X X X X X X X X X X X X X stop X X X X X X X X X X X X X X X X X X X X full",
            "sheet",
            6,
            0,
        ),
    ] {
        enter(&rt, &mut sheet, rule, Err((layer, number, place)), 1);
    }
    enter(&rt, &mut sheet, "full", Ok(1), 2);
    Ok(())
}

#[test]
fn a_sheet_with_sixteen_rules(rt: HostRuntime) -> Result<(), Fail> {
    let mut sheet = sheet_of(&rt, b"true");
    for rule in 1..16 {
        enter(&rt, &mut sheet, "true", Ok(rule), rule + 1);
    }
    enter(&rt, &mut sheet, "true", Err(("sheet", 7, 0)), 16);
    // The text's fault goes before the room.
    enter(&rt, &mut sheet, "true true", Err(("rule", 4, 4)), 16);
    Ok(())
}

// A rule of 31 operators that brings 32 formulas: `& b & b .. a`.
fn chain(heap: Global, name: char) -> Result<String, AllocError> {
    let mut text = String::new(heap);
    for _ in 0..31 {
        write!(text, "& {name} ")?;
    }
    text.push('a')?;
    Ok(text)
}

#[test]
fn a_sheet_with_256_formulas(rt: HostRuntime) -> Result<(), Fail> {
    let mut sheet = Sheet::new();
    assert_eq!(rt; numbered(sheet.open(b"a,b,c,d,e,f,g,h")), Ok(()));
    for (rule, name) in "abcdefgh".chars().enumerate() {
        let text = chain(rt.alloc(), name)?;
        enter(&rt, &mut sheet, text.as_str(), Ok(rule), rule + 1);
    }
    // It would bring a 257th formula.
    enter(&rt, &mut sheet, "true", Err(("sheet", 7, 0)), 8);
    // A rule without new formulas has room.
    let first = chain(rt.alloc(), 'a')?;
    enter(&rt, &mut sheet, first.as_str(), Ok(8), 9);
    Ok(())
}

// A list of calls over a machine of the caller's, which no log names.
use crate::areas::Areas;
use machines::round::Round;
use machines::table::Table;
use meaning::answers::Verdict;
use replay::answer::Answer;
use replay::call::{Call, Ground, Pile};
use replay::replay::replay;
use rules::sheet::Sheet;
use std::alloc::{AllocError, Global};
use std::process::Abort;
use std::test::Fail;

// Opens sheet 0 with the names `stop,full`.
fn opening<'a>(heap: Global) -> Result<Call<Round<'a>>, AllocError> {
    let names = b"stop,full".to_vec(heap)?;
    Ok(Call::Open { sheet: 0, names })
}

// Enters a rule on sheet 0.
fn entering<'a>(heap: Global) -> Result<Call<Round<'a>>, AllocError> {
    let rule = b"G ! & stop full".to_vec(heap)?;
    Ok(Call::Enter { sheet: 0, rule })
}

// A look with chart 0 over a round as a machine of the caller's, with signal 0 stuck.
fn look_at_round<'a>(heap: Global, letters: &'a [u8]) -> Result<Call<Round<'a>>, AllocError> {
    let ground = Ground::Other(Round::new(letters));
    let stuck = b"\x00".to_vec(heap)?;
    Ok(Call::Search {
        chart: 0,
        machine: Pile { ground, stuck },
        pairs: 8,
        walk: 9,
    })
}

// Makes calls on a new sheet and a blank chart.
fn replay_on_new(heap: Global, calls: &[Call<Round>]) -> Result<Vec<Answer>, AllocError> {
    let mut areas = Areas::<8, 8, 2048>::new();
    let mut charts = Vec::new(heap);
    charts.push(areas.chart())?;
    replay(
        heap,
        calls,
        &mut [Sheet::new()],
        Vec::<Table>::new(heap).as_mut_slice(),
        charts.as_mut_slice(),
    )
}

// Names and a rule for the sheet, a filling of the chart, and a look.
fn push_calls<'a>(heap: Global, calls: &mut Vec<Call<Round<'a>>>) -> Result<(), AllocError> {
    calls.push(opening(heap)?)?;
    calls.push(entering(heap)?)?;
    calls.push(Call::Fill {
        chart: 0,
        sheet: 0,
        rule: 0,
    })?;
    calls.push(look_at_round(heap, b"\x00\x02")?)?;
    Ok(())
}

// The round breaks the rule in its second state, with the signal stuck.
fn assert_shown(rt: &impl Abort, answers: &[Answer]) -> Result<(), Fail> {
    let [
        _,
        _,
        Answer::Filled(filled),
        Answer::Searched { verdict, walk },
    ] = answers
    else {
        return Err(Fail::new("four answers of their kinds"));
    };
    assert_eq!(rt; *filled, Ok((2, 2)));
    assert_eq!(rt; *verdict, Ok(Verdict::Shown { states: 2 }));
    assert_eq!(rt; walk.as_slice(), [0, 3, 0, 0, 0, 0, 0, 0, 0].as_slice());
    Ok(())
}

#[test]
fn a_machine_of_the_callers(rt: HostRuntime) -> Result<(), Fail> {
    let mut calls = Vec::new(rt.alloc());
    push_calls(rt.alloc(), &mut calls)?;
    let answers = replay_on_new(rt.alloc(), calls.as_slice())?;
    assert_shown(&rt, answers.as_slice())
}

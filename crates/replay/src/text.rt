// What is printed of an answer.
ghost use Rattle.std.specs.Prelude.{Some, ◌++◌, codes};
ghost use Rattle.std.specs.Fmt.{WritesOnOk};
ghost use Rattle.meaning.specs.Printed.{field, fields};
ghost use Rattle.replay.specs.AnswerText.{answer_text, opened_text, entered_text, loaded_text, filled_text, begun_text, scanned_text, verdict_text, found_text};

use crate::answer::Answer;
use meaning::answers::{Scanned, Verdict};
use meaning::refusals::{
    BeginningFault, FileFault, FillingFault, NamesFault, Refusal, ScanningFault, SearchingFault,
    SheetFault,
};
use std::fmt;

fn write_opened<W: fmt::Write>(
    f: &mut fmt::Formatter<W>,
    opened: Result<(), NamesFault>,
) -> fmt::Result
    ensures { WritesOnOk W.write_str_gives f.old result (opened_text opened) f.new }
{
    match opened {
        Ok(()) => write!(f, "open,done"),
        Err(fault) => {
            let number = fault.number();
            write!(f, "open,refused,{number}")
        }
    }
}

fn write_entered<W: fmt::Write>(
    f: &mut fmt::Formatter<W>,
    entered: Result<usize, SheetFault>,
) -> fmt::Result
    ensures { WritesOnOk W.write_str_gives f.old result (entered_text entered) f.new }
{
    match entered {
        Ok(rule) => write!(f, "enter,done,{rule}"),
        Err(fault) => {
            let layer = fault.layer();
            let number = fault.number();
            let place = fault.place();
            write!(f, "enter,refused,{layer},{number},{place}")
        }
    }
}

fn write_loaded<W: fmt::Write>(
    f: &mut fmt::Formatter<W>,
    loaded: Result<(), FileFault>,
) -> fmt::Result
    ensures { WritesOnOk W.write_str_gives f.old result (loaded_text loaded) f.new }
{
    match loaded {
        Ok(()) => write!(f, "load,done"),
        Err(FileFault { line, fault }) => {
            let layer = fault.layer();
            let number = fault.number();
            let place = fault.place();
            write!(f, "load,refused,{line},{layer},{number},{place}")
        }
    }
}

fn write_filled<W: fmt::Write>(
    f: &mut fmt::Formatter<W>,
    filled: Result<(usize, usize), FillingFault>,
) -> fmt::Result
    ensures { WritesOnOk W.write_str_gives f.old result (filled_text filled) f.new }
{
    match filled {
        Ok((labels, standings)) => write!(f, "fill,done,{labels},{standings}"),
        Err(fault) => {
            let number = fault.number();
            write!(f, "fill,refused,{number}")
        }
    }
}

fn write_begun<W: fmt::Write>(
    f: &mut fmt::Formatter<W>,
    begun: Result<(), BeginningFault>,
) -> fmt::Result
    ensures { WritesOnOk W.write_str_gives f.old result (begun_text begun) f.new }
{
    match begun {
        Ok(()) => write!(f, "begin,done"),
        Err(fault) => {
            let number = fault.number();
            write!(f, "begin,refused,{number}")
        }
    }
}

fn write_scanned<W: fmt::Write>(
    f: &mut fmt::Formatter<W>,
    scanned: Result<Scanned, ScanningFault>,
) -> fmt::Result
    ensures { WritesOnOk W.write_str_gives f.old result (scanned_text scanned) f.new }
{
    match scanned {
        Ok(Scanned::GoingOn) => write!(f, "scan,going on"),
        Ok(Scanned::Broken) => write!(f, "scan,broken"),
        Err(fault) => {
            let number = fault.number();
            write!(f, "scan,refused,{number}")
        }
    }
}

// That a walk breaks the rule.
fn write_shown<W: fmt::Write>(
    f: &mut fmt::Formatter<W>,
    states: usize,
    walk: &[usize],
) -> fmt::Result
    ensures { WritesOnOk W.write_str_gives f.old result (codes "find,broken" ++ (field states ++ fields walk.now)) f.new }
{
    write!(f, "find,broken,{states}")?;
    for state in walk {
        write!(f, ",{state}")?;
    }
    Ok(())
}

fn write_verdict<W: fmt::Write>(
    f: &mut fmt::Formatter<W>,
    verdict: Verdict,
    walk: &[usize],
) -> fmt::Result
    ensures { WritesOnOk W.write_str_gives f.old result (verdict_text verdict walk.now) f.new }
{
    match verdict {
        // the states stand at the front of the walk area
        Verdict::Shown { states } => write_shown(f, states, &walk[..states.min(walk.len())]),
        Verdict::Clear { pairs } => write!(f, "find,clear,{pairs}"),
    }
}

fn write_found<W: fmt::Write>(
    f: &mut fmt::Formatter<W>,
    verdict: Result<Verdict, SearchingFault>,
    walk: &[usize],
) -> fmt::Result
    ensures { WritesOnOk W.write_str_gives f.old result (found_text verdict walk.now) f.new }
{
    match verdict {
        Ok(verdict) => write_verdict(f, verdict, walk),
        Err(fault) => {
            let number = fault.number();
            write!(f, "find,refused,{number}")
        }
    }
}

impl fmt::Display for Answer {
    ghost output = { λ a. Some (answer_text a) };

    fn fmt<W: fmt::Write>(&self, f: &mut fmt::Formatter<W>) -> fmt::Result {
        match self {
            Answer::Opened(opened) => write_opened(f, *opened),
            Answer::Entered(entered) => write_entered(f, *entered),
            Answer::Loaded(loaded) => write_loaded(f, *loaded),
            Answer::Filled(filled) => write_filled(f, *filled),
            Answer::Begun(begun) => write_begun(f, *begun),
            Answer::Scanned(scanned) => write_scanned(f, *scanned),
            Answer::Searched { verdict, walk } => write_found(f, *verdict, walk.as_slice()),
            Answer::NoSuchObject => write!(f, "no such object"),
            Answer::ManyLayers => write!(f, "too many layers"),
        }
    }
}

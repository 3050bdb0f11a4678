// Files that loading refuses because of a state or a step. A refusal drops what was loaded before.
use crate::areas::assert_prints;
use loading::load::load;
use machines::records::{State, Step};
use machines::table::Table;
use meaning::refusals::FileFault;
use rules::sheet::Sheet;
use std::alloc::Global;
use std::process::Abort;
use std::test::Fail;

// Loads a file over one that was accepted, with room for two states and two steps. It is refused, and nothing is left.
fn load_over(rt: &impl Abort, file: &str) -> FileFault {
    let mut states = [State::BLANK; 2];
    let mut steps = [Step::BLANK; 2];
    let mut sheet = Sheet::new();
    let mut table = Table::new(&mut states, &mut steps);
    let before = b"signals,stop\nrule,stop\nstate,0,1,0\nstate,1,0,1\nstep,0,1\nstep,1,0\n";
    assert!(rt;
        load(&mut sheet, &mut table, before).is_ok(),
        "the file before is refused"
    );
    let answer = load(&mut sheet, &mut table, file.as_bytes());
    let left = (sheet.rule_count(), table.states(), table.steps());
    assert_eq!(rt; left, (0, 0, 0));
    assert!(rt; sheet.enter(b"stop").is_err(), "a name is left");
    answer.expect_err(rt, "the file is accepted")
}

// Files that are refused with these lines, for these reasons.
fn refuse_all(rt: &impl Abort, heap: Global, files: &[(&str, &str, &str)]) -> Result<(), Fail> {
    for (file, wanted, why) in files {
        assert_prints(rt, heap, load_over(rt, file), wanted, why)?;
    }
    Ok(())
}

#[test]
fn a_file_with_refused_states(rt: HostRuntime) -> Result<(), Fail> {
    refuse_all(
        &rt,
        rt.alloc(),
        &[
            (
                "signals,stop\nstate,0,1,0\nstate,2,0,0\n",
                "file,refused,3,table,18,0",
                "a gap",
            ),
            (
                "signals,stop\nstate,0,1,0\nstep,0,0\nstate,1,0,0\n",
                "file,refused,4,table,18,0",
                "a state behind a step",
            ),
            (
                "signals,stop\nstate,0,1,0\nstate,1,0,0\nstate,2,0,0\n",
                "file,refused,4,table,19,0",
                "a third state",
            ),
            (
                "signals,stop\nstate,0,1,0\nstate,1,0,0\nstate,2,0,256\n",
                "file,refused,4,table,18,0",
                "no letter, before the room",
            ),
        ],
    )
}

#[test]
fn a_file_with_refused_steps(rt: HostRuntime) -> Result<(), Fail> {
    refuse_all(
        &rt,
        rt.alloc(),
        &[
            (
                "signals,stop\nstate,0,1,0\nstate,1,0,0\nstep,1,0\nstep,0,1\n",
                "file,refused,5,table,18,0",
                "the source falls",
            ),
            (
                "signals,stop\nstate,0,1,0\nstate,1,0,0\nstep,0,2\n",
                "file,refused,4,table,18,0",
                "an unknown target",
            ),
            (
                "signals,stop\nstate,0,1,0\nstep,0,0\nstep,0,0\nstep,0,0\n",
                "file,refused,5,table,19,0",
                "a third step",
            ),
            (
                "signals,stop\nstate,0,1,0\nstep,0,0\nstep,0,0\nstep,1,0\n",
                "file,refused,5,table,18,0",
                "an unknown source, before the room",
            ),
        ],
    )
}

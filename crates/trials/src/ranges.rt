// The questions of machines at the ends of their ranges and past them, and the lines that a table refuses.
use crate::areas::{assert_prints, numbered};
use crate::told::{Asked, has_no_states};
use machines::machine::Machine;
use machines::records::{State, Step};
use machines::round::Round;
use machines::stuck::StuckLayer;
use machines::table::Table;
use std::process::Abort;
use std::test::Fail;

#[test]
fn a_round_at_its_ends(rt: HostRuntime) -> Result<(), Fail> {
    let round = Round::new(b"\x03\x05");
    let told = "count 2, width 1, starts 1\
        ; 0: start 0, letter 3, steps 1: 1 -\
        ; 1: start -, letter 5, steps 0: - -\
        ; 2: start -, letter -, steps -: - -";
    let asked = Asked {
        machine: &round,
        numbers: &[0, 1, 2],
        steps: &[0, 1],
    };
    assert_prints(&rt, rt.alloc(), asked, told, "a round")?;
    let asked = Asked {
        machine: &&round,
        numbers: &[0, 1, 2],
        steps: &[0, 1],
    };
    assert_prints(&rt, rt.alloc(), asked, told, "a lent round")
}

#[test]
fn a_round_without_letters(rt: HostRuntime) {
    let round = Round::new(b"");
    assert!(rt; has_no_states(&round));
    assert!(rt; has_no_states(&&round), "a lent one");
}

// A line of a table: a state's number, whether it is a start, and its letter; or a step's ends.
#[derive(Clone, Copy)]
enum Line {
    State(usize, bool, u8),
    Step(usize, usize),
}

// Adds a line, which the table is to answer so.
fn add(rt: &impl Abort, table: &mut Table, line: Line, wanted: Result<(), u8>, why: &str) {
    let answer = match line {
        Line::State(number, start, letter) => table.add_state(number, start, letter),
        Line::Step(from, to) => table.add_step(from, to),
    };
    assert_eq!(rt; numbered(answer), wanted, "{why}");
}

// Adds lines that the table refuses with these numbers, for these reasons.
fn add_refused(rt: &impl Abort, table: &mut Table, lines: &[(Line, u8, &str)]) {
    for (line, number, why) in lines {
        add(rt, table, *line, Err(*number), why);
    }
}

// A table of three states and two steps: the first state is no start.
fn fill(rt: &impl Abort, table: &mut Table) {
    for line in [
        Line::State(0, false, 7),
        Line::State(1, true, 8),
        Line::State(2, true, 9),
        Line::Step(1, 0),
        Line::Step(1, 2),
    ] {
        add(rt, table, line, Ok(()), "a line of the table");
    }
}

#[test]
fn a_table_refuses_lines(rt: HostRuntime) {
    let mut states = [State::BLANK; 3];
    let mut steps = [Step::BLANK; 2];
    let mut table = Table::new(&mut states, &mut steps);
    let of_blank = [
        (Line::State(1, true, 7), 18, "numbers count on from 0"),
        (Line::Step(0, 0), 18, "no state is declared"),
    ];
    add_refused(&rt, &mut table, &of_blank);
    fill(&rt, &mut table);
    let of_full = [
        (Line::State(3, true, 9), 19, "the area is full"),
        (Line::State(2, true, 9), 18, "the form goes before the room"),
        (Line::Step(3, 0), 18, "the source is not declared"),
        (Line::Step(1, 3), 18, "the target is not declared"),
        (Line::Step(0, 1), 18, "the source falls"),
        (Line::Step(2, 0), 19, "the area is full"),
    ];
    add_refused(&rt, &mut table, &of_full);
}

#[test]
fn a_table_at_its_ends(rt: HostRuntime) -> Result<(), Fail> {
    let mut states = [State::BLANK; 3];
    let mut steps = [Step::BLANK; 2];
    let mut table = Table::new(&mut states, &mut steps);
    assert!(rt; has_no_states(&table));
    fill(&rt, &mut table);
    let told = "count 3, width 32768, starts 2\
        ; 0: start 1, letter 7, steps 0: - - -\
        ; 1: start 2, letter 8, steps 2: 0 2 -\
        ; 2: start -, letter 9, steps 0: - - -\
        ; 3: start -, letter -, steps -: - - -";
    let asked = Asked {
        machine: &table,
        numbers: &[0, 1, 2, 3],
        steps: &[0, 1, 2],
    };
    assert_prints(&rt, rt.alloc(), asked, told, "a full table")?;
    table.clear();
    assert!(rt; has_no_states(&table));
    Ok(())
}

// Adds starts with letter 1.
fn add_states(rt: &impl Abort, table: &mut Table, count: usize) {
    for number in 0..count {
        add(rt, table, Line::State(number, true, 1), Ok(()), "a start");
    }
}

// Adds steps of state 4095, to one state after another.
fn add_steps(rt: &impl Abort, table: &mut Table, count: usize) {
    for at in 0..count {
        add(rt, table, Line::Step(4095, at % 4096), Ok(()), "a step");
    }
}

// Adds as many states and steps as a table takes, and finds that it takes no more.
fn fill_to_limits(rt: &impl Abort, table: &mut Table) {
    add_states(rt, table, 4096);
    let of_states = [
        (Line::State(4096, true, 1), 19, "4,096 states are there"),
        (
            Line::State(4097, true, 1),
            18,
            "the form goes before the room",
        ),
    ];
    add_refused(rt, table, &of_states);
    add_steps(rt, table, 16384);
    let of_steps = [(Line::Step(4095, 0), 19, "16,384 steps are there")];
    add_refused(rt, table, &of_steps);
}

#[test]
fn a_table_up_to_its_limits(rt: HostRuntime) -> Result<(), Fail> {
    let mut states = [State::BLANK; 4097];
    let mut steps = [Step::BLANK; 16385];
    let mut table = Table::new(&mut states, &mut steps);
    fill_to_limits(&rt, &mut table);
    assert_eq!(rt; (table.states(), table.steps()), (4096, 16384));
    let told = "count 4096, width 32768, starts 4096\
        ; 4095: start 4095, letter 1, steps 16384: 4095 -\
        ; 4096: start -, letter -, steps -: - -";
    let asked = Asked {
        machine: &table,
        numbers: &[4095, 4096],
        steps: &[16383, 16384],
    };
    assert_prints(&rt, rt.alloc(), asked, told, "the last state and step")
}

// A layer with this answer to whether it fits, so many states, and such a width.
fn assert_layer<M: Machine>(
    rt: &impl Abort,
    layer: &StuckLayer<M>,
    fitting: Result<(), u8>,
    count: usize,
    width: usize,
) {
    let found = (numbered(layer.fitting()), layer.count(), layer.width());
    assert_eq!(rt; found, (fitting, count, width));
}

#[test]
fn a_layer_at_its_ends(rt: HostRuntime) -> Result<(), Fail> {
    let round = Round::new(b"\x00\x02");
    let layer = StuckLayer::new(&round, 7);
    assert_layer(&rt, &layer, Ok(()), 4, 2);
    let told = "count 4, width 2, starts 1\
        ; 0: start 0, letter 0, steps 2: 1 3 -\
        ; 1: start -, letter 2, steps 0: - - -\
        ; 2: start -, letter 128, steps 1: 3 - -\
        ; 3: start -, letter 130, steps 0: - - -\
        ; 4: start -, letter -, steps -: - - -";
    let asked = Asked {
        machine: &layer,
        numbers: &[0, 1, 2, 3, 4],
        steps: &[0, 1, 2],
    };
    assert_prints(&rt, rt.alloc(), asked, told, "a layer over a round")
}

// A layer that is refused, and has no states.
fn assert_beyond<M: Machine>(rt: &impl Abort, layer: &StuckLayer<M>) {
    assert_layer(rt, layer, Err(20), 0, 0);
    assert!(rt; has_no_states(layer));
}

#[test]
fn a_signal_that_does_not_fit(rt: HostRuntime) {
    let round = Round::new(b"\x00\x02");
    assert_beyond(&rt, &StuckLayer::new(&round, 8));
}

#[test]
fn a_layer_up_to_its_limit(rt: HostRuntime) {
    let most = Round::new(&[0; 32768]);
    assert_layer(&rt, &StuckLayer::new(&most, 0), Ok(()), 65536, 2);
    // One state too many.
    let more = Round::new(&[0; 32769]);
    assert_beyond(&rt, &StuckLayer::new(&more, 0));
}

// Two more layers over a machine with a width of 524,288: the first still fits, and has a width of 1,048,576.
fn assert_last_layers<M: Machine>(rt: &impl Abort, four: &M) {
    let five = StuckLayer::new(four, 4);
    assert_layer(rt, &five, Ok(()), 32, 1048576);
    assert_beyond(rt, &StuckLayer::new(&five, 5));
}

// Four layers over a table, and two over these.
fn assert_six_layers<M: Machine>(rt: &impl Abort, two: &M) {
    let four = StuckLayer::new(StuckLayer::new(two, 2), 3);
    assert_last_layers(rt, &four);
}

#[test]
fn a_pile_too_wide(rt: HostRuntime) {
    let mut states = [State::BLANK; 1];
    let mut table = Table::new(&mut states, &mut []);
    add_states(&rt, &mut table, 1);
    let two = StuckLayer::new(StuckLayer::new(&table, 0), 1);
    assert_six_layers(&rt, &two);
}

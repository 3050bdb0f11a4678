// What is refused before a machine is looked at, and a pile of stuck layers.
use crate::areas::{Areas, assert_prints, numbered, sheet_of};
use crate::told::Asked;
use breaches::find::find_breach;
use charts::chart::Chart;
use machines::round::Round;
use machines::stuck::StuckLayer;
use meaning::answers::Verdict;
use meaning::refusals::SearchingFault;
use pairs::pair::Pair;
use std::process::Abort;
use std::test::Fail;

// Looks for a breach of a round with room for so many pairs and a walk of so many states, at most four. A refusal before looking changes no area.
fn look(
    rt: &impl Abort,
    chart: &Chart,
    letters: &[u8],
    pairs: usize,
    walk: usize,
) -> Result<Verdict, u8> {
    let mut pair_area = [Pair::BLANK; 4];
    let mut walk_area = [9; 4];
    let answer = find_breach(
        chart,
        &Round::new(letters),
        &mut pair_area[..pairs.min(4)],
        &mut walk_area[..walk.min(4)],
    );
    let looked = answer.is_ok() || answer == Err(SearchingFault::PairsExceed);
    assert!(rt;
        looked || pair_area == [Pair::BLANK; 4],
        "the pair area is changed"
    );
    assert!(rt;
        answer.is_ok() || walk_area == [9; 4],
        "the walk area is changed"
    );
    numbered(answer)
}

// Letters, the room for pairs, that for a walk, the answer, and why it is that.
type Look<'a> = (&'a [u8], usize, usize, Result<Verdict, u8>, &'a str);

fn look_at_all(rt: &impl Abort, chart: &Chart, looks: &[Look]) {
    for (letters, pairs, walk, wanted, why) in looks {
        assert_eq!(rt; look(rt, chart, letters, *pairs, *walk), *wanted, "{why}");
    }
}

#[test]
fn what_is_refused_before_looking(rt: HostRuntime) {
    let mut areas = Areas::<8, 3, 768>::new();
    let mut chart = areas.chart();
    look_at_all(&rt, &chart, &[(b"", 4, 4, Err(11), "a blank chart")]);
    assert!(rt; chart.fill(&sheet_of(&rt, b"G ! & stop full"), 0).is_ok());
    let clear = Ok(Verdict::Clear { pairs: 1 });
    let shown = Ok(Verdict::Shown { states: 1 });
    look_at_all(
        &rt,
        &chart,
        &[
            (b"", 4, 4, Err(14), "no start"),
            (&[0; 65537], 4, 4, Err(15), "65,537 states"),
            (
                b"\x00",
                4,
                4,
                Err(16),
                "a walk area as long as the pair area",
            ),
            (b"\x00", 0, 1, Err(17), "no room for the one pair"),
            (b"\x00", 1, 2, clear, "room for the one pair"),
            (
                b"\x03",
                0,
                1,
                shown,
                "room 0 still shows a start that is a breach",
            ),
        ],
    );
}

#[test]
fn piles_of_stuck_layers(rt: HostRuntime) -> Result<(), Fail> {
    let round = Round::new(b"\x00\x02");
    let pile = StuckLayer::new(StuckLayer::new(StuckLayer::new(&round, 0), 1), 7);
    let told = "count 16, width 8, starts 1\
        ; 0: start 0, letter 0, steps 8: 15 -\
        ; 1: start -, letter 2, steps 0: - -\
        ; 15: start -, letter 131, steps 0: - -\
        ; 16: start -, letter -, steps -: - -";
    let asked = Asked {
        machine: &pile,
        numbers: &[0, 1, 15, 16],
        steps: &[7, 8],
    };
    assert_prints(&rt, rt.alloc(), asked, told, "three layers over a round")
}

// A worklist: all states of an automaton into a lent area, and the number of the next state for each state and letter.
ghost use Rattle.std.specs.Prelude.{◌≡◌, ℕ, ◌*◌, ◌<◌, List, [], length, MatchOption, slice_index};
ghost use Rattle.logic.specs.Formula.{Letters};
ghost use Rattle.once.specs.Once.{GoesOn};
ghost use Rattle.charting.specs.Worklists.{Rooms, Reaches, LetterRow, Crowds, Complete, Overflows};

use once::{Item, KeepOnce};

// A deterministic automaton over the 256 letters, whose states can be kept once.
pub(crate) trait Automaton {
    type State: Item + Copy + Drop;

    // what is computed of a state for all letters at once
    type Ahead: Copy + Drop;

    // whether a word leads to a state
    ghost leads: { Self → List ℕ → Self.State → Type 0 };

    // whether it is what is computed of a state
    ghost ahead_of: { Self → Self.State → Self.Ahead → Type 0 };

    // a word with one letter more
    ghost longer: { ℕ → List ℕ → List ℕ };

    // The state of the empty word.
    fn first(&self) -> Self::State
        ensures { leads self.now [] result };

    // What the states after a state are read from.
    fn ahead(&self, from: &Self::State) -> Self::Ahead
        ensures { ahead_of self.now from.now result };

    // The state one letter after the one of which this was computed.
    fn after(&self, ahead: &Self::Ahead, letter: u8) -> Self::State
        ensures { (from : Self.State) (u : List ℕ) → ahead_of self.now from ahead.now → leads self.now u from → leads self.now (longer letter u) result };

    // what leads to a state leads to each that is the same
    ghost same: { (a : Self) (u : List ℕ) (x y : Self.State) → Self.State.alike x y → leads a u y → leads a u x };

    // a word of letters stays one
    ghost lettered: { (s : ℕ) (u : List ℕ) → s < 256 → Letters u → Letters (longer s u) };
}

// The states one letter after state i, into its row of the next numbers; none where the list is full.
fn fill_row<A: Automaton>(
    automaton: &A,
    list: &mut KeepOnce<A::State>,
    next: &mut [u16],
    i: usize,
) -> Option<()>
    requires known { i < list.old.len }
    requires rooms { Rooms list.old.area.now next.old }
    requires walks { (d : A.State) → Reaches d (A.leads automaton.now) list.old.area.now list.old.len }
    ensures goes_on { GoesOn A.State.alike list.old.area list.old.len list.new.area list.new.len }
    ensures walks { (d : A.State) → Reaches d (A.leads automaton.now) list.new.area.now list.new.len }
    ensures row { (d : A.State) → MatchOption result (Crowds A.State.alike d (A.leads automaton.now) list.new.area.now list.new.len) (λ _. LetterRow d (A.leads automaton.now) A.longer list.new.area.now list.new.len next.new i 256) }
    ensures rest { (k : ℕ) → k < i * 256 → slice_index next.new k ≡ slice_index next.old k }
{
    let from = *list.get(i).unwrap();
    let ahead = automaton.ahead(&from);
    for letter in 0..=u8::MAX {
        let k = list.add(automaton.after(&ahead, letter))?;
        next[i * 256 + letter as usize] = k as u16;
    }
    Some(())
}

// All states, and the next numbers; none where there are more states than places.
pub(crate) fn all_states<A: Automaton>(
    automaton: &A,
    area: &mut [A::State],
    next: &mut [u16],
) -> Option<usize>
    requires { Rooms area.old next.old }
    ensures { (d : A.State) → MatchOption result (Overflows A.State.alike d (A.leads automaton.now) (length area.old)) (λ n. Complete A.State.alike d (A.leads automaton.now) A.longer area.new n next.new) }
{
    let mut list = KeepOnce::new(area);
    list.add(automaton.first())?;
    let mut done = 0;
    // Kept: the list grows while it is walked, which no iterator over it allows; so the rows go by number too.
    while done < list.len() {
        fill_row(automaton, &mut list, next, done)?;
        done += 1;
    }
    Some(list.len())
}

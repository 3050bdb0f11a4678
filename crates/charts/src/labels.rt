// All labels of a breach formula, by a worklist. The label of a word says of which kept formulas the word is a breach.
ghost use Rattle.std.specs.Prelude.{length, MatchOption};
ghost use Rattle.std.proofs.Common.{rules};
ghost use Rattle.logic.specs.Formula.{Letters};
ghost use Rattle.logic.specs.Counting.{More};
ghost use Rattle.logic.specs.Standings.{SameLabel};
ghost use Rattle.charting.specs.Breaches.{kept_of, TellLetters};
ghost use Rattle.charting.specs.Worklists.{Rooms};
ghost use Rattle.charting.specs.Labels.{Labels, at_front, Labelled};

use crate::worklist::{Automaton, all_states};
use formulas::breach::BreachFormula;

// The labels, with letters put before their words.
impl Automaton for BreachFormula {
    type State = u32;

    type Ahead = [[u64; 32]; 4];

    ghost leads = { λ b w x. Labels (kept_of b) w x };

    ghost ahead_of = { TellLetters };

    ghost longer = { at_front };

    fn first(&self) -> u32 {
        0
    }

    fn ahead(&self, from: &u32) -> [[u64; 32]; 4] {
        self.words_before(*from)
    }

    fn after(&self, ahead: &[[u64; 32]; 4], letter: u8) -> u32 {
        self.label_by(ahead, letter)
    }

    ghost same = { Prim.search rules };

    ghost lettered = { λ s w small l. (small, l) };
}

// The labels of all words, and the table of the labels one letter earlier; none where there are more labels than places.
pub(crate) fn all_labels(
    area: &mut [u32],
    table: &mut [u16],
    formula: &BreachFormula,
) -> Option<usize>
    requires { Rooms area.old table.old }
    ensures labelled { MatchOption result (More (length area.old) Letters (SameLabel (kept_of formula.now))) (λ n. Labelled (kept_of formula.now) area.new n table.new) }
{
    all_states(formula, area, table)
}

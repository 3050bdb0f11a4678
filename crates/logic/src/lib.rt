// The logic of rules: formulas, words, witnesses and breaches, labels, standings and how they are counted, in specs/; here its theorems,
// each on the contract of a function that does nothing, so that the check asks for its proof. The meaning of the calls (`meaning`) and all that speaks of formulas stands on it.
#![tactic(auto)]

ghost use Rattle.logic.specs.Statements.{BreachIsSat, EmptyHasNone, EmptyIsNoBreach, BreachStays, OnlyNamedSignalsCount};
ghost use Rattle.logic.specs.Statements.{LabelIs, KeptClosed, KeptOfClosed, LabelBack};
ghost use Rattle.logic.specs.Statements.{KeptListed, KeptOnce};
ghost use Rattle.logic.specs.Statements.{OneDecided, AnyDecided, StandingsAreRight, StandingOneLetterLater, BreachByEmptyLabel, ChartIsRight, ToldApart, StandingsOfAny, ChartOfAny};
ghost use Rattle.logic.specs.Statements.{NoSmallerTable, NoSmallerOfAny, LabelsCounted, StandingsCounted, LabelRooms, StandingRooms};
ghost use Rattle.logic.specs.Examples.{Examples};
ghost use Rattle.logic.specs.Masks.{MasksAreRight, MasksDiffer};

pub fn a_breach_is_decided_by_recursion()
    ensures { BreachIsSat }
{}

pub fn the_empty_word_has_no_witness()
    ensures { EmptyHasNone }
{}

pub fn the_empty_word_is_no_breach()
    ensures { EmptyIsNoBreach }
{}

pub fn a_breach_stays_one_when_letters_are_added()
    ensures { BreachStays }
{}

pub fn only_the_named_signals_of_letters_count()
    ensures { OnlyNamedSignalsCount }
{}

pub fn the_label_is_what_recursion_computes()
    ensures { LabelIs }
{}

pub fn kept_formulas_hold_what_is_kept_of_them()
    ensures { KeptClosed }
{}

pub fn kept_formulas_of_several_hold_what_is_kept_of_them()
    ensures { KeptOfClosed }
{}

pub fn the_label_of_a_longer_word_follows()
    ensures { LabelBack }
{}

pub fn kept_formulas_are_listed()
    ensures { KeptListed }
{}

pub fn kept_formulas_are_listed_once()
    ensures { KeptOnce }
{}

pub fn a_label_tells_a_breach()
    ensures { OneDecided }
{}

pub fn a_label_tells_a_breach_of_any()
    ensures { AnyDecided }
{}

pub fn standings_follow_letter_by_letter()
    ensures { StandingsAreRight }
{}

pub fn the_standing_one_letter_later_follows()
    ensures { StandingOneLetterLater }
{}

pub fn a_breach_is_told_by_the_empty_label_in_its_standing()
    ensures { BreachByEmptyLabel }
{}

pub fn a_chart_says_breach_for_the_breaches()
    ensures { ChartIsRight }
{}

pub fn different_standings_are_told_apart_by_a_word()
    ensures { ToldApart }
{}

pub fn standings_of_several_follow_letter_by_letter()
    ensures { StandingsOfAny }
{}

pub fn a_chart_of_several_says_breach_for_the_breaches()
    ensures { ChartOfAny }
{}

pub fn no_table_has_fewer_entries_than_standings()
    ensures { NoSmallerTable }
{}

pub fn no_table_of_several_has_fewer_entries_than_standings()
    ensures { NoSmallerOfAny }
{}

pub fn labels_have_one_number()
    ensures { LabelsCounted }
{}

pub fn standings_have_one_number()
    ensures { StandingsCounted }
{}

pub fn labels_exceed_a_room_or_fit_it()
    ensures { LabelRooms }
{}

pub fn standings_exceed_a_room_or_fit_it()
    ensures { StandingRooms }
{}

pub fn the_examples_have_these_counts()
    ensures { Examples }
{}

pub fn the_bits_of_a_label_are_those_of_its_number()
    ensures { MasksAreRight }
{}

pub fn different_labels_have_different_numbers()
    ensures { MasksDiffer }
{}

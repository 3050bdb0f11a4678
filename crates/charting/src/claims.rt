// What is claimed of filled areas, each on the contract of a function that does nothing: the check asks for its proof.
ghost use Rattle.charting.specs.Answers.{FillingsAreRight, RefusalsAreRight};
ghost use Rattle.charting.specs.Whole.{FilledChartsAreWhole, WholeChartsRead, FilledChartsRead};

// Areas that are filled for a formula hold all its labels and standings, each once, and the next standing for each standing and letter.
pub fn filled_charts_are_whole()
    ensures { FilledChartsAreWhole }
{}

// Whole areas with the empty label first say breach for exactly the breaches, and lead two words to one number exactly where they have the same standing.
pub fn whole_charts_read_their_formula()
    ensures { WholeChartsRead }
{}

// So do areas that are filled for a formula.
pub fn filled_charts_read_their_formula()
    ensures { FilledChartsRead }
{}

// The counts of a filling are the numbers of labels and of standings of its formula, and neither exceeds its room.
pub fn fillings_count_rightly()
    ensures { FillingsAreRight }
{}

// A refused filling has more labels, or more standings, than room.
pub fn fillings_are_refused_rightly()
    ensures { RefusalsAreRight }
{}

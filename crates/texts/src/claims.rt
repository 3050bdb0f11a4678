// What is claimed of rule texts, each on the contract of a function that does nothing: the check asks for its proof.
ghost use Rattle.texts.specs.Claims.{AcceptedTextsMeanRules, RulesWithRoomAreAccepted, Over256FormulasAreRefused, Over32KeptAreRefused, BytesBehindARuleAreRefused};
ghost use Rattle.texts.specs.Counts.{ListedAreTheSubformulasOnce};
ghost use Rattle.texts.specs.Faults.{WrongWordsFollowABeginning};
ghost use Rattle.texts.specs.Entered.{ListsCountWhatIsSpecified, JudgingAnswersRightly};
ghost use Rattle.texts.specs.Reader.{ReadingFindsTheFault};
ghost use Rattle.texts.specs.Fit.{FitNamesAreThese, WhatIsReadIsWritten, WhatIsWrittenIsRead};

// A list of names is fit for a sheet exactly where the specification says so.
pub fn fit_names_are_these()
    ensures { FitNamesAreThese }
{}

// What is read off the front of a text is a rule that is written there.
pub fn what_is_read_is_written()
    ensures { WhatIsReadIsWritten }
{}

// A rule's writing is read as that rule.
pub fn what_is_written_is_read()
    ensures { WhatIsWrittenIsRead }
{}

// A text that entering accepts means a rule, and there is room for it.
pub fn accepted_texts_mean_rules()
    ensures { AcceptedTextsMeanRules }
{}

// A text that means a rule is accepted where there is room for it.
pub fn rules_with_room_are_accepted()
    ensures { RulesWithRoomAreAccepted }
{}

// It is refused where the sheet's formulas would be over 256.
pub fn over_256_formulas_are_refused()
    ensures { Over256FormulasAreRefused }
{}

// It is refused where over 32 formulas would be kept of it.
pub fn over_32_kept_are_refused()
    ensures { Over32KeptAreRefused }
{}

// Bytes behind a rule are refused, at the first of them.
pub fn bytes_behind_a_rule_are_refused()
    ensures { BytesBehindARuleAreRefused }
{}

// What is counted for a sheet are the subformulas, each once.
pub fn listed_are_the_subformulas_once()
    ensures { ListedAreTheSubformulasOnce }
{}

// What stands before a wrong word begins a rule, so no fault lies further left.
pub fn wrong_words_follow_a_beginning()
    ensures { WrongWordsFollowABeginning }
{}

// The reader finds the fault that the specification says, at its place, and a rule exactly where there is none.
pub fn reading_finds_the_fault()
    ensures { ReadingFindsTheFault }
{}

// A sheet is full, and too much is kept of a text, exactly where the computed lists are too long.
pub fn lists_count_what_is_specified()
    ensures { ListsCountWhatIsSpecified }
{}

// What is judged over the formulas of a sheet is the right answer to entering a text.
pub fn judging_answers_rightly()
    ensures { JudgingAnswersRightly }
{}

// What an accepted scan answers.
#[derive(Clone, Copy, Debug, PartialEq, Eq)]
pub enum Scanned {
    GoingOn,
    Broken,
}

// What an accepted search answers: a walk was shown, of so many states; or there is none, and all walks have so many different pairs.
#[derive(Clone, Copy, Debug, PartialEq, Eq)]
pub enum Verdict {
    Shown { states: usize },
    Clear { pairs: usize },
}

// What the definition of a log's lines says, on the contract of a function that does nothing: the check asks for its proof.
ghost use Rattle.logs.specs.Lines.{LinesTellTheCallsThatTheyWrite};

// A line tells a call exactly where it writes it.
pub fn lines_tell_the_calls_that_they_write()
    ensures { LinesTellTheCallsThatTheyWrite }
{}

// What came back of a call.
use meaning::answers::{Scanned, Verdict};
use meaning::refusals::{
    BeginningFault, FileFault, FillingFault, NamesFault, ScanningFault, SearchingFault, SheetFault,
};

// The answer of the call itself, and of a look for a breach also what the walk area holds then; or why no call was made: an object of that
// number is not there, or a machine has more than three stuck layers.
#[derive(Drop)]
pub enum Answer {
    Opened(Result<(), NamesFault>),
    Entered(Result<usize, SheetFault>),
    Loaded(Result<(), FileFault>),
    Filled(Result<(usize, usize), FillingFault>),
    Begun(Result<(), BeginningFault>),
    Scanned(Result<Scanned, ScanningFault>),
    Searched {
        verdict: Result<Verdict, SearchingFault>,
        walk: Vec<usize>,
    },
    NoSuchObject,
    ManyLayers,
}

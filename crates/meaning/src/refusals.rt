// Every refusal, with its number and its text. A place is a byte of the rule text, from 0.
ghost use Rattle.std.specs.Prelude.{◌≡◌, ℕ, ◌≤◌, Some};
ghost use Rattle.std.proofs.Common.{rules};
ghost use Rattle.meaning.specs.Refusals.{number_of_names, number_of_rule, number_of_sheet, number_of_filling, number_of_beginning, number_of_scanning};
ghost use Rattle.meaning.specs.Refusals.{number_of_searching, number_of_table, number_of_line_fault, number_of_fitting, place_of_rule, place_of_sheet, place_of_line_fault, layer_of_sheet, layer_of_line_fault};
ghost use Rattle.meaning.specs.Printed.{fault_text};

use std::fmt;

// Opening.
#[derive(Clone, Copy, Debug, PartialEq, Eq)]
pub enum NamesFault {
    Unfit,
}

// Entering: the text itself.
#[derive(Clone, Copy, Debug, PartialEq, Eq)]
pub enum RuleFault {
    WrongWord { place: usize },
    WordWanted { place: usize },
    BytesFollow { place: usize },
    TooDeep { place: usize },
}

// Entering: the text, or what it would bring to the sheet.
#[derive(Clone, Copy, Debug, PartialEq, Eq)]
pub enum SheetFault {
    Rule(RuleFault),
    OverKept,
    SheetFull,
}

// Filling.
#[derive(Clone, Copy, Debug, PartialEq, Eq)]
pub enum FillingFault {
    NoRule,
    LabelsExceed,
    StandingsExceed,
}

// Beginning.
#[derive(Clone, Copy, Debug, PartialEq, Eq)]
pub enum BeginningFault {
    Blank,
}

// Scanning.
#[derive(Clone, Copy, Debug, PartialEq, Eq)]
pub enum ScanningFault {
    Blank,
    NoWatch,
    AlreadyBroken,
}

// Searching.
#[derive(Clone, Copy, Debug, PartialEq, Eq)]
pub enum SearchingFault {
    Blank,
    NoStart,
    ManyStates,
    ShortWalkArea,
    PairsExceed,
}

// Loading: a line that breaks its form, or one that finds no room.
#[derive(Clone, Copy, Debug, PartialEq, Eq)]
pub enum TableFault {
    Form,
    NoRoom,
}

// Loading: what the layer said that refused a line.
#[derive(Clone, Copy, Debug, PartialEq, Eq)]
pub enum LineFault {
    Names(NamesFault),
    Sheet(SheetFault),
    Table(TableFault),
}

// Loading: the line, from 1, and what was said of it.
#[derive(Clone, Copy, Debug, PartialEq, Eq)]
pub struct FileFault {
    pub line: usize,
    pub fault: LineFault,
}

// Fitting: asked of the stuck layer.
#[derive(Clone, Copy, Debug, PartialEq, Eq)]
pub enum FittingFault {
    TooLarge,
}

// A refusal: its number is what is printed of it.
pub trait Refusal {
    ghost number_of: { Self → ℕ };

    fn number(self) -> u8
        ensures { result ≡ number_of self };

    ghost numbers_in_use: { (x : Self) → (1 ≤ number_of x) × (number_of x ≤ 20) };
}

impl Refusal for NamesFault {
    ghost number_of = { number_of_names };

    ghost numbers_in_use = { Prim.search rules };

    fn number(self) -> u8 {
        match self {
            NamesFault::Unfit => 1,
        }
    }
}

impl Refusal for RuleFault {
    ghost number_of = { number_of_rule };

    ghost numbers_in_use = { Prim.search rules };

    fn number(self) -> u8 {
        match self {
            RuleFault::WrongWord { .. } => 2,
            RuleFault::WordWanted { .. } => 3,
            RuleFault::BytesFollow { .. } => 4,
            RuleFault::TooDeep { .. } => 5,
        }
    }
}

impl Refusal for SheetFault {
    ghost number_of = { number_of_sheet };

    ghost numbers_in_use = { Prim.search rules };

    fn number(self) -> u8 {
        match self {
            SheetFault::Rule(e) => e.number(),
            SheetFault::OverKept => 6,
            SheetFault::SheetFull => 7,
        }
    }
}

impl Refusal for FillingFault {
    ghost number_of = { number_of_filling };

    ghost numbers_in_use = { Prim.search rules };

    fn number(self) -> u8 {
        match self {
            FillingFault::NoRule => 8,
            FillingFault::LabelsExceed => 9,
            FillingFault::StandingsExceed => 10,
        }
    }
}

impl Refusal for BeginningFault {
    ghost number_of = { number_of_beginning };

    ghost numbers_in_use = { Prim.search rules };

    fn number(self) -> u8 {
        match self {
            BeginningFault::Blank => 11,
        }
    }
}

impl Refusal for ScanningFault {
    ghost number_of = { number_of_scanning };

    ghost numbers_in_use = { Prim.search rules };

    fn number(self) -> u8 {
        match self {
            ScanningFault::Blank => 11,
            ScanningFault::NoWatch => 12,
            ScanningFault::AlreadyBroken => 13,
        }
    }
}

impl Refusal for SearchingFault {
    ghost number_of = { number_of_searching };

    ghost numbers_in_use = { Prim.search rules };

    fn number(self) -> u8 {
        match self {
            SearchingFault::Blank => 11,
            SearchingFault::NoStart => 14,
            SearchingFault::ManyStates => 15,
            SearchingFault::ShortWalkArea => 16,
            SearchingFault::PairsExceed => 17,
        }
    }
}

impl Refusal for TableFault {
    ghost number_of = { number_of_table };

    ghost numbers_in_use = { Prim.search rules };

    fn number(self) -> u8 {
        match self {
            TableFault::Form => 18,
            TableFault::NoRoom => 19,
        }
    }
}

impl Refusal for LineFault {
    ghost number_of = { number_of_line_fault };

    ghost numbers_in_use = { Prim.search rules };

    fn number(self) -> u8 {
        match self {
            LineFault::Names(e) => e.number(),
            LineFault::Sheet(e) => e.number(),
            LineFault::Table(e) => e.number(),
        }
    }
}

impl Refusal for FittingFault {
    ghost number_of = { number_of_fitting };

    ghost numbers_in_use = { Prim.search rules };

    fn number(self) -> u8 {
        match self {
            FittingFault::TooLarge => 20,
        }
    }
}

impl RuleFault {
    pub fn place(self) -> usize
        ensures { result ≡ place_of_rule self }
    {
        match self {
            RuleFault::WrongWord { place }
            | RuleFault::WordWanted { place }
            | RuleFault::BytesFollow { place }
            | RuleFault::TooDeep { place } => place,
        }
    }
}

impl SheetFault {
    pub fn place(self) -> usize
        ensures { result ≡ place_of_sheet self }
    {
        match self {
            SheetFault::Rule(e) => e.place(),
            SheetFault::OverKept | SheetFault::SheetFull => 0,
        }
    }

    // The layer that refuses: the rule's text, or the sheet.
    // Kept: a layer is only printed, as one of four words; a type of its own would say no more.
    pub fn layer(self) -> &'static str
        ensures { result.now ≡ layer_of_sheet self }
    {
        match self {
            SheetFault::Rule(_) => "rule",
            SheetFault::OverKept | SheetFault::SheetFull => "sheet",
        }
    }
}

impl LineFault {
    pub fn place(self) -> usize
        ensures { result ≡ place_of_line_fault self }
    {
        match self {
            LineFault::Names(_) | LineFault::Table(_) => 0,
            LineFault::Sheet(e) => e.place(),
        }
    }

    // The layer that refuses the line.
    pub fn layer(self) -> &'static str
        ensures { result.now ≡ layer_of_line_fault self }
    {
        match self {
            LineFault::Names(_) => "names",
            LineFault::Sheet(e) => e.layer(),
            LineFault::Table(_) => "table",
        }
    }
}

// What is printed for a refused file.
impl fmt::Display for FileFault {
    ghost output = { λ x. Some (fault_text x) };

    fn fmt<W: fmt::Write>(&self, f: &mut fmt::Formatter<W>) -> fmt::Result {
        let FileFault { line, fault } = *self;
        let layer = fault.layer();
        let number = fault.number();
        let place = fault.place();
        write!(f, "file,refused,{line},{layer},{number},{place}")
    }
}

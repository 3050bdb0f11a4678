// Reading names parted by commas.
ghost use Rattle.std.specs.Prelude.{◌≡◌, []};
ghost use Rattle.rules.specs.Names.{names_held};
ghost use Rattle.texts.specs.Fit.{Fit};
ghost use Rattle.rules.specs.Opening.{AllLower, NameIs, Joins, Opens};

use crate::names::{Name, Names};
use crate::words::fixed_word;
use fixed::FixedList;

// Whether all bytes are lowercase letters.
fn is_lowercase(word: &[u8]) -> bool
    ensures { AllLower result word.now }
{
    word.iter().all(|b| b.is_ascii_lowercase())
}

// The name that a word is.
fn name_of(word: &[u8]) -> Option<Name>
    ensures { NameIs word.now result }
{
    // The length first: of a long word no letter is looked at.
    let letters = FixedList::from_slice(0, word)?;
    if word.is_empty() || !is_lowercase(word) || fixed_word(word).is_some() {
        return None;
    }
    Some(Name { letters })
}

impl Names {
    // No names.
    pub fn none() -> Names
        ensures { names_held result ≡ [] }
    {
        let blank = Name {
            letters: FixedList::new(0),
        };
        Names {
            list: FixedList::new(blank),
        }
    }

    // These names and one more.
    fn with(&self, word: &[u8]) -> Option<Names>
        ensures { Fit (names_held self.now) → Joins (names_held self.now) word.now result }
    {
        let name = name_of(word)?;
        if self.place(word).is_some() {
            return None;
        }
        let mut list = self.list;
        list.push(name)?;
        Some(Names { list })
    }
}

// The names of a text.
pub fn read_names(text: &[u8]) -> Option<Names>
    ensures { Opens [] text.now result }
{
    let mut names = Names::none();
    for word in text.split(|b| *b == b',') {
        names = names.with(word)?;
    }
    Some(names)
}

// Looking names up.
ghost use Rattle.std.specs.Prelude.{◌≡◌, Decides};
ghost use Rattle.texts.specs.Places.{place_of};
ghost use Rattle.rules.specs.Names.{letters_of, names_held};

use crate::names::{Name, Names};

impl Name {
    // Whether this name is spelled so.
    fn is_spelled(&self, word: &[u8]) -> bool
        ensures { Decides result (letters_of self.now ≡ word.now) }
    {
        self.letters.as_slice() == word
    }
}

impl Names {
    // The number of the name that is spelled so.
    pub fn place(&self, word: &[u8]) -> Option<u8>
        ensures { result ≡ place_of (names_held self.now) word.now }
    {
        let names = self.list.as_slice();
        names
            .iter()
            .position(|name| name.is_spelled(word))
            .map(|i| i as u8)
    }
}

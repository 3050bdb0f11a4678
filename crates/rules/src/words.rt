// The words of a rule text.
ghost use Rattle.std.specs.Prelude.{◌≡◌, ◌-◌, ◌≤◌, length, drop};
ghost use Rattle.rules.specs.Names.{names_held};
ghost use Rattle.texts.specs.Places.{length_to};
ghost use Rattle.texts.specs.Words.{operator_word, long_word as long_words, fixed_word, word_of, Heads, Above};

use crate::names::Names;
use meaning::refusals::RuleFault;
use std::str::from_utf8;
use texts::words::{Binary, Leaf, Unary, Word};

// The words of one letter.
// Kept: a rule of the project tells them by cases of characters.
fn operator(c: u8) -> Option<Word>
    ensures { result ≡ operator_word c }
{
    match char::from(c) {
        '!' => Some(Word::One(Unary::Not)),
        'X' => Some(Word::One(Unary::Next)),
        'F' => Some(Word::One(Unary::Finally)),
        'G' => Some(Word::One(Unary::Globally)),
        '&' => Some(Word::Two(Binary::And)),
        '|' => Some(Word::Two(Binary::Or)),
        'U' => Some(Word::Two(Binary::Until)),
        'V' => Some(Word::Two(Binary::Release)),
        _ => None,
    }
}

// The longer words.
fn long_word(word: &[u8]) -> Option<Word>
    ensures { result ≡ long_words word.now }
{
    match from_utf8(word).ok()? {
        "true" => Some(Word::Zero(Leaf::True)),
        "false" => Some(Word::Zero(Leaf::False)),
        "->" => Some(Word::Two(Binary::Implies)),
        _ => None,
    }
}

// The words that every text has.
pub fn fixed_word(word: &[u8]) -> Option<Word>
    ensures { result ≡ fixed_word word.now }
{
    match word {
        [c] => operator(*c),
        _ => long_word(word),
    }
}

// How many bytes stand before the first `stop`.
fn length_to(text: &[u8], stop: u8) -> usize
    ensures is { result ≡ length_to stop text.now }
    ensures within { result ≤ length text.now }
{
    text.iter().position(|b| *b == stop).unwrap_or(text.len())
}

// What follows the one space after a word.
pub fn skip_space(rest: &[u8]) -> &[u8]
    ensures { result.now ≡ drop 1 rest.now }
{
    match rest {
        [] => rest,
        [_, more @ ..] => more,
    }
}

// A reader of a rule text: a copy of the names that it reads under, and the length of the whole text.
#[derive(Clone, Copy)]
pub struct Reader {
    names: Names,
    total: usize,
}

impl Reader {
    pub fn new(names: &Names, text: &[u8]) -> Reader
        ensures names { result.names ≡ names.now }
        ensures total { result.total ≡ length text.now }
    {
        Reader {
            names: *names,
            total: text.len(),
        }
    }

    // Where in the text `rest` begins.
    pub fn place(&self, rest: &[u8]) -> usize
        ensures { result ≡ self.now.total - length rest.now }
    {
        self.total.saturating_sub(rest.len())
    }

    // What a word stands for.
    fn word_of(&self, word: &[u8]) -> Option<Word>
        ensures { result ≡ word_of (names_held self.now.names) word.now }
    {
        fixed_word(word).or_else(|| self.names.place(word).map(|i| Word::Zero(Leaf::Name(i))))
    }

    // The word that `rest` begins with, and where its operands or what follows it begin.
    pub fn next_word<'t>(&self, rest: &'t [u8], depth: u8) -> Result<(Word, &'t [u8]), RuleFault>
        ensures is { Heads (names_held self.now.names) self.now.total depth rest.now result }
        ensures above { Above depth result }
    {
        if rest.is_empty() {
            return Err(RuleFault::WordWanted { place: self.total });
        }
        let place = self.place(rest);
        let (bytes, after) = rest.split_at(length_to(rest, b' '));
        let word = self.word_of(bytes).ok_or(RuleFault::WrongWord { place })?;
        match word {
            Word::Zero(_) => Ok((word, after)),
            Word::One(_) | Word::Two(_) if depth == 0 => Err(RuleFault::TooDeep { place }),
            Word::One(_) | Word::Two(_) => Ok((word, skip_space(after))),
        }
    }
}

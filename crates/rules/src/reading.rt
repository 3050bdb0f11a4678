// Reading a rule text into the store.
ghost use Rattle.std.specs.Prelude.{List, length};
ghost use Rattle.logic.specs.Formula.{Formula};
ghost use Rattle.rules.specs.Names.{names_held};
ghost use Rattle.logic.specs.Rule.{positive as positively, negated as negatively};
ghost use Rattle.rules.specs.Readings.{Reads, Numbered};
ghost use Rattle.rules.specs.Signs.{reading_of};
ghost use Rattle.rules.specs.Stored.{nodes_held, Holds, Grown};

use crate::sign::Sign;
use crate::store::Store;
use crate::words::{Reader, skip_space};
use meaning::refusals::RuleFault;
use texts::words::{Binary, Leaf, Unary, Word};

impl Reader {
    // Stores the positive reading of the rule that `rest` begins with, and answers its number and what follows it.
    // No number: the store is full, which does not stop the reading.
    // Kept: a rule of the project has two readings that lead into each other at every `!`; all that they share is `read`.
    #[cycle(readings)]
    pub fn positive<'t>(
        &self,
        rest: &'t [u8],
        depth: u8,
        store: &mut Store,
    ) -> Result<(Option<u16>, &'t [u8]), RuleFault>
        ensures within { Numbered (length (nodes_held store.new)) result }
        ensures longer { Grown store.old store.new }
        ensures reads { (gs : List Formula) → Holds store.old gs → Reads positively (names_held self.now.names) self.now.total depth rest.now gs (nodes_held store.new) result }
    {
        self.read(rest, depth, Sign::Positive, store)
    }

    // The same of the negated reading.
    #[cycle(readings)]
    pub fn negated<'t>(
        &self,
        rest: &'t [u8],
        depth: u8,
        store: &mut Store,
    ) -> Result<(Option<u16>, &'t [u8]), RuleFault>
        ensures within { Numbered (length (nodes_held store.new)) result }
        ensures longer { Grown store.old store.new }
        ensures reads { (gs : List Formula) → Holds store.old gs → Reads negatively (names_held self.now.names) self.now.total depth rest.now gs (nodes_held store.new) result }
    {
        self.read(rest, depth, Sign::Negated, store)
    }

    // Either reading, by its sign; they lead into each other at every `!`.
    // Kept: the rest of the text, the depth left and the store change from call to call, so they are arguments and no parts of the reader.
    #[cycle(readings)]
    fn read<'t>(
        &self,
        rest: &'t [u8],
        depth: u8,
        sign: Sign,
        store: &mut Store,
    ) -> Result<(Option<u16>, &'t [u8]), RuleFault>
        ensures within { Numbered (length (nodes_held store.new)) result }
        ensures longer { Grown store.old store.new }
        ensures reads { (gs : List Formula) → Holds store.old gs → Reads (reading_of sign) (names_held self.now.names) self.now.total depth rest.now gs (nodes_held store.new) result }
    {
        let (word, after) = self.next_word(rest, depth)?;
        match word {
            Word::Zero(leaf) => Ok((store.intern(sign.leaf(leaf)), after)),
            Word::One(Unary::Not) => match sign {
                Sign::Positive => self.negated(after, depth - 1, store),
                Sign::Negated => self.positive(after, depth - 1, store),
            },
            Word::One(Unary::Next) => {
                let (a, end) = self.read(after, depth - 1, sign, store)?;
                Ok((store.intern_next(a), end))
            }
            // Kept: one function for F and G would take six arguments and join the cycle of the readings, which is no plainer.
            Word::One(Unary::Finally) => {
                let always = store.intern(sign.leaf(Leaf::True));
                let (b, end) = self.read(after, depth - 1, sign, store)?;
                Ok((store.intern_binary(sign.of(Binary::Until), always, b), end))
            }
            Word::One(Unary::Globally) => {
                let never = store.intern(sign.leaf(Leaf::False));
                let (b, end) = self.read(after, depth - 1, sign, store)?;
                Ok((store.intern_binary(sign.of(Binary::Release), never, b), end))
            }
            Word::Two(op) => {
                let (a, mid) = self.read(after, depth - 1, sign.of_left(op), store)?;
                let (b, end) = self.read(skip_space(mid), depth - 1, sign, store)?;
                Ok((store.intern_binary(sign.of(op), a, b), end))
            }
        }
    }
}

// An entry of the pair area.
ghost use Rattle.std.specs.Prelude.{◌≡◌, ◌+◌, ◌*◌, ◌%◌};
ghost use Rattle.std.proofs.Common.{rules};

use once::Item;

// The pair of a walk: its last state, and the standing (state of the chart's automaton) after the letters before that state.
// Beside it the number of the entry that the walk came through, and its number of states.
// Kept: an entry goes by its number, since the area of the pairs is lent.
#[derive(Clone, Copy, Debug, PartialEq, Eq)]
pub struct Pair {
    pub state: usize,
    pub standing: u16,
    pub parent: usize,
    pub depth: usize,
}

impl Pair {
    // What a new pair area may hold.
    pub const BLANK: Pair = Pair {
        state: 0,
        standing: 0,
        parent: 0,
        depth: 0,
    };
}

// Pairs are the same by state and standing.
impl Item for Pair {
    ghost alike = { λ p q. (p.state ≡ q.state) × (p.standing ≡ q.standing) };

    ghost bucketed = { λ p. p.state % 65536 * 65536 + p.standing };

    ghost reflexive = { Prim.search rules };

    ghost symmetric = { Prim.search rules };

    ghost transitive = { Prim.search rules };

    ghost level = { Prim.search rules };

    fn same(&self, other: &Pair) -> bool {
        self.state == other.state && self.standing == other.standing
    }

    fn bucket(&self) -> u32 {
        (self.state % 65536) as u32 * 65536 + self.standing as u32
    }
}

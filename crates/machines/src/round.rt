// The round: a word of letters as a machine, one state after the other; the last state has no step.
ghost use Rattle.std.specs.Prelude.{◌≡◌, ℕ, ◌<◌, slice_index};
ghost use Rattle.meaning.specs.Kinds.{round_meaning};
ghost use Rattle.meaning.proofs.OfLaws.{rounds_are_lawful};
ghost use Rattle.machines.specs.Bytes.{bytes_are_letters};

use crate::machine::Machine;

#[derive(Drop)]
pub struct Round<'a> {
    letters: &'a [u8],
    ghost bytes: { (i : ℕ) → slice_index letters.now i < 256 },
}

impl<'a> Round<'a> {
    pub fn new(letters: &'a [u8]) -> Self
        ensures { result.letters.now ≡ letters.now }
    {
        Round { letters }
    }
}

impl Machine for Round<'_> {
    ghost meaning = { λ r. round_meaning r.letters.now };

    ghost lawful = { λ r. rounds_are_lawful r.letters.now (bytes_are_letters r.letters.now r.bytes) };

    fn count(&self) -> usize {
        self.letters.len()
    }

    fn width(&self) -> usize {
        1
    }

    fn start_count(&self) -> usize {
        usize::from(!self.letters.is_empty())
    }

    fn start(&self, k: usize) -> Option<usize> {
        (k < self.start_count()).then_some(0)
    }

    fn letter(&self, s: usize) -> Option<u8> {
        self.letters.get(s).copied()
    }

    fn step_count(&self, s: usize) -> Option<usize> {
        self.letters.get(s)?;
        Some(usize::from(s + 1 < self.letters.len()))
    }

    fn step(&self, s: usize, k: usize) -> Option<usize> {
        let next = s.checked_add(1)?;
        (next < self.letters.len() && k == 0).then_some(next)
    }
}

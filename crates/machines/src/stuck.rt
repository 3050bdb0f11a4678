// The stuck layer: over a machine of n states, states n to 2n - 1 are the same states with one signal stuck on.
ghost use Rattle.std.specs.Prelude.{◌≡◌, Some, None, cond, option_map};
ghost use Rattle.meaning.specs.Kinds.{fitting, stuck_fits, stuck_meaning};
ghost use Rattle.meaning.proofs.OfLaws.{stuck_layers_are_lawful};

use crate::machine::Machine;
use meaning::refusals::FittingFault;

#[derive(Drop)]
pub struct StuckLayer<M> {
    below: M,
    signal: u8,
}

impl<M: Machine> StuckLayer<M> {
    pub fn new(below: M, signal: u8) -> Self
        ensures below { result.below ≡ below }
        ensures signal { result.signal ≡ signal }
    {
        StuckLayer { below, signal }
    }

    // The machine below, where the layer fits over it.
    fn fitted(&self) -> Option<&M>
        ensures { option_map (λ m. m.now) result ≡ cond (stuck_fits (M.Machine.meaning self.now.below) self.now.signal) (Some self.now.below) None }
    {
        let fits = self.below.count() <= 32768 && self.below.width() <= 524288 && self.signal <= 7;
        fits.then_some(&self.below)
    }

    // Whether the layer fits over the machine below; where it does not, it has no states.
    pub fn fitting(&self) -> Result<(), FittingFault>
        ensures { result ≡ fitting (M.Machine.meaning self.now.below) self.now.signal }
    {
        self.fitted().map(|_| ()).ok_or(FittingFault::TooLarge)
    }
}

impl<M: Machine> Machine for StuckLayer<M> {
    ghost meaning = { λ s. stuck_meaning (M.Machine.meaning s.below) s.signal };

    ghost lawful = { λ s. stuck_layers_are_lawful (M.Machine.meaning s.below) s.signal (M.Machine.lawful s.below) };

    fn count(&self) -> usize {
        2 * self.fitted().map_or(0, |below| below.count())
    }

    fn width(&self) -> usize {
        2 * self.fitted().map_or(0, |below| below.width())
    }

    fn start_count(&self) -> usize {
        self.fitted().map_or(0, |below| below.start_count())
    }

    fn start(&self, k: usize) -> Option<usize> {
        self.fitted()?.start(k)
    }

    fn letter(&self, s: usize) -> Option<u8> {
        let below = self.fitted()?;
        let n = below.count();
        if s < n {
            return below.letter(s);
        }
        Some(below.letter(s - n)? | (1 << self.signal))
    }

    fn step_count(&self, s: usize) -> Option<usize> {
        let below = self.fitted()?;
        let n = below.count();
        if s >= n {
            return below.step_count(s - n);
        }
        Some(2 * below.step_count(s)?)
    }

    fn step(&self, s: usize, k: usize) -> Option<usize> {
        let below = self.fitted()?;
        let n = below.count();
        if s >= n {
            return Some(n + below.step(s - n, k)?);
        }
        let t = below.step(s, k / 2)?;
        Some(if k % 2 == 0 { t } else { n + t })
    }
}

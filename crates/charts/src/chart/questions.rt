// What can be asked of a chart.
ghost use Rattle.std.specs.Prelude.{◌≡◌, if◌then◌else◌, Some, None, nat_lt};
ghost use Rattle.charting.specs.Filled.{after, breached};
ghost use Rattle.charts.specs.Watch.{blank};

use crate::chart::Chart;
use crate::standings::has_label;
use crate::state::State;

impl<'a> Chart<'a> {
    // Whether no rule is filled.
    pub fn is_blank(&self) -> bool
        ensures { result ≡ blank self.now.state }
    {
        matches!(self.state, State::Blank)
    }

    // How many standings there are; the first is number 0.
    pub fn standings(&self) -> usize
        ensures { result ≡ self.now.standing_count }
    {
        self.standing_count
    }

    // The standing one letter after another.
    pub fn next(&self, standing: u16, letter: u8) -> Option<u16>
        ensures { result ≡ (if nat_lt standing self.now.standing_count then Some (after self.now.next.now standing letter) else None) }
    {
        let place = standing as usize * 256 + letter as usize;
        ((standing as usize) < self.standing_count).then(|| self.next[place])
    }

    // Whether the words that lead to a standing are breaches.
    pub fn says_breach(&self, standing: u16) -> Option<bool>
        ensures { result ≡ (if nat_lt standing self.now.standing_count then Some (breached self.now.standings.now standing) else None) }
    {
        let q = standing as usize;
        (q < self.standing_count).then(|| has_label(&self.standings[q], 0))
    }
}

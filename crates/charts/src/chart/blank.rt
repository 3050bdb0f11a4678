// A new chart.
ghost use Rattle.std.specs.Prelude.{◌≡◌, ℕ, None};
ghost use Rattle.meaning.specs.Calls.{History};
ghost use Rattle.meaning.specs.Histories.{filled_rule, watch};
ghost use Rattle.charts.specs.Kept.{OnLoan};
ghost use Rattle.charts.specs.Led.{ChartLed};

use crate::chart::Chart;
use crate::state::State;

impl<'a> Chart<'a> {
    // A blank chart over three areas.
    pub fn new(
        labels: &'a mut [u32],
        standings: &'a mut [[u64; 8]],
        next: &'a mut [u16],
    ) -> Chart<'a>
        ensures blank { result.state ≡ State.Blank }
        ensures counts { (result.label_count ≡ 0) × (result.standing_count ≡ 0) }
        ensures areas { (result.labels.now ≡ labels.old) × (result.standings.now ≡ standings.old) × (result.next.now ≡ next.old) }
        ensures lent { OnLoan labels.entry standings.entry next.entry result }
        ensures led { (h : History) (c : ℕ) → filled_rule h c ≡ None → watch h c ≡ None → ChartLed h c result }
    {
        Chart {
            labels,
            standings,
            next,
            label_count: 0,
            standing_count: 0,
            state: State::Blank,
        }
    }
}

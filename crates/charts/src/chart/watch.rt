// The watch of a chart.
ghost use Rattle.std.specs.Prelude.{◌≡◌, ◌<◌, ℕ};
ghost use Rattle.charting.specs.Filled.{after, breached};
ghost use Rattle.meaning.specs.Calls.{History, beginning, scanning};
ghost use Rattle.charts.specs.Watch.{begun, scanned, reacted};
ghost use Rattle.charts.specs.Watched.{Begun, Scans};
ghost use Rattle.charts.specs.Kept.{SameAreas};
ghost use Rattle.charts.specs.Led.{ChartLed, Answered};

use crate::chart::Chart;
use crate::standings::has_label;
use crate::state::{Event, State};
use meaning::answers::Scanned;
use meaning::refusals::{BeginningFault, ScanningFault};

impl<'a> Chart<'a> {
    // Starts a watch, or starts it over.
    pub fn begin(&mut self) -> Result<(), BeginningFault>
        ensures begins { (result, self.new.state) ≡ begun self.old.state }
        ensures watches { Begun self.old self.new result }
        ensures led { (h : History) (c : ℕ) → ChartLed h c self.old → Answered h c (beginning c) result self.new }
        ensures stays { SameAreas self.old self.new }
    {
        self.react(Event::Begin)
            .map(|_| ())
            .map_err(|_| BeginningFault::Blank)
    }

    // Follows one letter. Once the letters are a breach, no more are taken.
    pub fn scan(&mut self, letter: u8) -> Result<Scanned, ScanningFault>
        ensures scans { (result, self.new.state) ≡ scanned self.old.standings.now self.old.next.now self.old.state letter }
        ensures watches { Scans self.old self.new letter result }
        ensures led { (h : History) (c : ℕ) → ChartLed h c self.old → Answered h c (scanning c letter) result self.new }
        ensures stays { SameAreas self.old self.new }
    {
        self.react(Event::Scan { letter })
    }

    // The standing one letter after one of the chart's own: what `next` answers, with no range to ask for.
    fn standing_after(&self, standing: u16, letter: u8) -> u16
        requires { standing < self.now.standing_count }
        ensures { result ≡ after self.now.next.now standing letter }
    {
        self.next[standing as usize * 256 + letter as usize]
    }

    // Whether the words that lead to one of the chart's own standings are breaches: what `says_breach` answers.
    fn is_breach(&self, standing: u16) -> bool
        requires { standing < self.now.standing_count }
        ensures { result ≡ breached self.now.standings.now standing }
    {
        let standings = &*self.standings;
        has_label(&standings[standing as usize], 0)
    }

    // What an event does at each state.
    // Kept: a rule of the project has the chart match its own state together with the event.
    fn react(&mut self, event: Event) -> Result<Scanned, ScanningFault>
        ensures reacts { (result, self.new.state) ≡ reacted self.old.standings.now self.old.next.now self.old.state event }
        ensures stays { SameAreas self.old self.new }
    {
        match (self.state, event) {
            (State::Blank, _) => Err(ScanningFault::Blank),
            (_, Event::Begin) => {
                self.state = State::Watching { standing: 0 };
                Ok(Scanned::GoingOn)
            }
            (State::Ready, Event::Scan { .. }) => Err(ScanningFault::NoWatch),
            (State::Broken, Event::Scan { .. }) => Err(ScanningFault::AlreadyBroken),
            (State::Watching { standing: from }, Event::Scan { letter }) => {
                let standing = self.standing_after(from, letter);
                if self.is_breach(standing) {
                    self.state = State::Broken;
                    Ok(Scanned::Broken)
                } else {
                    self.state = State::Watching { standing };
                    Ok(Scanned::GoingOn)
                }
            }
        }
    }
}

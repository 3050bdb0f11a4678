// Filling a chart.
ghost use Rattle.std.specs.Prelude.{◌≡◌, ℕ, List, MatchResult};
ghost use Rattle.logic.specs.Formula.{Formula};
ghost use Rattle.meaning.specs.Bytes.{Text};
ghost use Rattle.meaning.specs.Calls.{History, filling};
ghost use Rattle.rules.specs.Kept.{formula_of};
ghost use Rattle.rules.specs.Led.{SheetLed};
ghost use Rattle.rules.specs.Model.{Stands};
ghost use Rattle.charting.specs.Filled.{FillingOnce, Refusing};
ghost use Rattle.charts.specs.Fills.{areas, ReadyWith, Emptied, Left, Fills};
ghost use Rattle.charts.specs.Kept.{OnLoan};
ghost use Rattle.charts.specs.Led.{ChartLed, Answered};

use crate::chart::Chart;
use crate::filling::fill_areas;
use crate::state::State;
use formulas::breach::BreachFormula;
use meaning::refusals::FillingFault;
use rules::sheet::Sheet;

impl<'a> Chart<'a> {
    // Fills the chart for a rule of a sheet and drops the watch: the numbers of labels and of standings. Where there are too many
    // of either, the chart is blank afterwards; where there is no such rule, it stays as it was.
    // Kept: a rule of the project answers both numbers as a pair.
    pub fn fill(&mut self, sheet: &Sheet, rule: usize) -> Result<(usize, usize), FillingFault>
        ensures lent { OnLoan self.old.labels self.old.standings self.old.next self.new }
        ensures sizes { areas self.new ≡ areas self.old }
        ensures left { Left result self.old self.new }
        ensures led { (h : History) (c s : ℕ) → SheetLed h s sheet.now → ChartLed h c self.old → Answered h c (filling c s rule (areas self.old)) result self.new }
        ensures fills { (ns : List Text) (fs : List Formula) → Stands sheet.now ns fs → Fills fs rule result self.old self.new }
    {
        let formula = sheet.breach(rule).ok_or(FillingFault::NoRule)?;
        self.fill_with(&formula)
    }

    // Fills the chart for a breach formula.
    fn fill_with(&mut self, formula: &BreachFormula) -> Result<(usize, usize), FillingFault>
        ensures lent { OnLoan self.old.labels self.old.standings self.old.next self.new }
        ensures sizes { areas self.new ≡ areas self.old }
        ensures left { MatchResult result (λ p. ReadyWith p self.new) (λ _. Emptied self.new) }
        ensures filled { MatchResult result (λ p. FillingOnce (formula_of formula.now) (areas self.old) self.new.labels.now p.0 self.new.standings.now p.1 self.new.next.now) (λ e. Refusing (formula_of formula.now) (areas self.old) e) }
    {
        self.state = State::Blank;
        self.label_count = 0;
        self.standing_count = 0;
        let (a, b) = fill_areas(formula, self.labels, self.standings, self.next)?;
        self.label_count = a;
        self.standing_count = b;
        self.state = State::Ready;
        Ok((a, b))
    }
}

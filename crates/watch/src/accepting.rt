// A sample is accepted as a new point, with all that follows.
ghost use Rattle.std.specs.Prelude.{◌≡◌, ℕ, ◌+◌, ◌<◌, ◌≤◌, List, length, take, MatchOption};
ghost use Rattle.std.specs.Option.{ok_or};
ghost use Rattle.feed.specs.Lists.{onto};
ghost use Rattle.feed.specs.declared.entry.Entry.{Entry};
ghost use Rattle.rule.specs.Components.{components, waits};
ghost use Rattle.rule.specs.Reading.{records};
ghost use Rattle.logic.specs.Draws.{filled, filled_at, next_name, ruled, sampled, treatment};
ghost use Rattle.logic.specs.declared.refusal.DrawRefusal.TheVariants.{Slots};
ghost use Rattle.logic.specs.declared.verdict.HeldPoint.{HeldPoint};
ghost use Rattle.watch.specs.States.{conditions, counted, state, with_held};

use crate::arrival::Arrival;
use crate::fill::fill;
use crate::fronts::put_front;
use crate::naming::gap_from;
use crate::treating::treat_with;
use crate::watch::Watch;
use feed::Sample;
use instant::last_value;
use logic::{HeldPoint, Line, Point};
use rule::Rule;
use truth::Condition;

// Fills in the conditions at a new point, and what the waits become there, over those of the newest point, if there is one.
fn fill_after(
    newest: Option<Point>,
    rule: &Rule,
    arrival: &Arrival,
    values: &[Condition],
    fresh: &mut [Condition],
    becomes: &mut [Condition],
)
    requires values { components (records rule.now) ≤ length values.now }
    requires fresh { components (records rule.now) ≤ length fresh.old }
    requires becomes { waits (records rule.now) ≤ length becomes.old }
    ensures fresh { fresh.new ≡ onto (filled (records rule.now) arrival.now.sample.letters arrival.now.gap (conditions newest (components (records rule.now)) values.now) (length (records rule.now))).values fresh.old }
    ensures becomes { becomes.new ≡ onto (filled (records rule.now) arrival.now.sample.letters arrival.now.gap (conditions newest (components (records rule.now)) values.now) (length (records rule.now))).becomes becomes.old }
{
    let known = newest.map_or(0, |_| rule.components());
    fill(rule, arrival, &values[..known], fresh, becomes);
}

// The condition of the rule, which is its last record, among those of all components.
fn ruled(rule: &Rule, values: &[Condition]) -> Condition
    requires { components (records rule.now) ≤ length values.now }
    ensures { result ≡ ruled (records rule.now) (take (components (records rule.now)) values.now) }
{
    last_value(rule, &values[..rule.components()])
}

impl Watch {
    // Fills in the conditions at the new point of a sample, and treats the held points, carried there, and then the new point.
    // The answer is how many stay held. The held points are saved before, where as many are held as there are slots.
    fn treat_sample(&mut self, sample: Sample, point: Point, tray: &mut [Line]) -> usize
        requires tray { self.old.count < length tray.old }
        requires point { point ≡ next_name self.old.newest sample.stamp }
        ensures held { take result self.new.held ≡ (treatment (state self.old) sample (filled_at (state self.old) sample)).held }
        ensures lines { tray.new ≡ onto (treatment (state self.old) sample (filled_at (state self.old) sample)).lines tray.old }
        ensures sum { result + length (treatment (state self.old) sample (filled_at (state self.old) sample)).lines ≡ self.old.count + 1 }
        ensures values { take (components (records self.old.rule)) self.new.fresh ≡ (filled_at (state self.old) sample).values }
        ensures saved { self.old.count ≡ self.old.slots → take self.old.count self.new.saved ≡ take self.old.count self.old.held }
        ensures count { self.new.count ≡ self.old.count }
        ensures others { (hs : List HeldPoint) → with_held (state self.new) hs ≡ with_held (state self.old) hs }
    {
        self.arrival
            .renew(sample, gap_from(self.newest, sample.stamp));
        fill_after(
            self.newest,
            &self.rule,
            &self.arrival,
            &self.values,
            &mut self.fresh,
            &mut self.becomes,
        );
        let condition = ruled(&self.rule, &self.fresh);
        let new = HeldPoint { point, condition };
        let waits = self.rule.waits();
        let count = self.count;
        if count == self.slots {
            put_front(&mut self.saved, &self.held, count);
        }
        treat_with(&mut self.held, count, &self.becomes, waits, new, tray)
    }

    // Accepts a sample as the new point, and answers the number of lines; none, and all that is held stays, where more points
    // would be held than there are slots.
    pub(crate) fn accept(
        &mut self,
        sample: Sample,
        point: Point,
        tray: &mut [Line],
    ) -> Option<usize>
        requires tray { self.old.count < length tray.old }
        requires point { point ≡ next_name self.old.newest sample.stamp }
        ensures answer { (es : List Entry) (place : ℕ) → ok_or result (Slots place) ≡ (sampled (state self.old) es place sample).answer }
        ensures state { (es : List Entry) (place : ℕ) → MatchOption result (state self.new ≡ state self.old) (λ lines. counted (state self.new) ≡ (sampled (state self.old) es place sample).state) }
        ensures tray { (es : List Entry) (place : ℕ) → tray.new ≡ onto (sampled (state self.old) es place sample).lines tray.old }
        ensures drawn { self.new.drawn ≡ self.old.drawn }
    {
        let count = self.count;
        let kept = self.treat_sample(sample, point, tray);
        if kept > self.slots {
            put_front(&mut self.held, &self.saved, count);
            return None;
        }
        let n = self.rule.components();
        put_front(&mut self.values, &self.fresh, n);
        self.newest = Some(point);
        self.count = kept;
        Some(count + 1 - kept)
    }
}

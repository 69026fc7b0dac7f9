// The open conditions at a new point, record by record, and what the waits become there.
ghost use Rattle.std.specs.Prelude.{◌≡◌, ◌+◌, ◌<◌, ◌≤◌, List, ◌++◌, map, length, take};
ghost use Rattle.std.specs.List.{range_with_len};
ghost use Rattle.truth.specs.declared.table.Condition.{Condition};
ghost use Rattle.truth.specs.Tables.{openly};
ghost use Rattle.feed.specs.Lists.{onto};
ghost use Rattle.rule.specs.Components.{components, first_component, first_wait, waits};
ghost use Rattle.rule.specs.Reading.{records};
ghost use Rattle.instant.specs.Step.{before};
ghost use Rattle.logic.specs.Draws.{among, brought, conditioned, filled, given, lettered, row_values, row_waits};
ghost use Rattle.logic.specs.Steps.{evaluated, renewed};
ghost use Rattle.logic.specs.Tables.{row};
ghost use Rattle.logic.specs.Values.{at_shift_or};

use crate::arrival::Arrival;
use instant::{evaluate, value_or_never};
use rule::{Record, Rule};
use truth::{Condition, Truth};

// What the conditions at a new point are made from: the rule, the sample that arrives, and the conditions of all components at the
// point before.
#[derive(Clone, Copy)]
struct Filling<'a> {
    rule: &'a Rule,
    arrival: &'a Arrival,
    before: &'a [Condition],
}

impl Filling<'_> {
    // The condition of a record's argument, among some at the new point; never where it has none.
    fn argument(&self, which: Option<u8>, values: &[Condition]) -> Condition
        ensures { result ≡ at_shift_or (λ a. among values.now (first_component (records self.now.rule.now) a)) openly.never which }
    {
        value_or_never(
            values,
            which.map(|a| self.rule.first_component(usize::from(a))),
        )
    }

    // The condition of a component at the point before, carried to the new point; never where there is none.
    fn brought(&self, which: Option<usize>, becomes: &[Condition]) -> Condition
        ensures { result ≡ brought becomes.now self.now.before.now which }
    {
        match which.and_then(|c| self.before.get(c)) {
            Some(condition) => condition.replaced(becomes),
            None => Condition::never(),
        }
    }

    // What a neighbour point gives record j at a shift: its own wait, or a carried condition of the point before.
    fn given(&self, j: usize, shift: u8, becomes: &[Condition]) -> Condition
        ensures { result ≡ given (records self.now.rule.now) self.now.arrival.now.gap self.now.before.now becomes.now j shift }
    {
        if self.rule.record(j).looks_ahead() {
            return Condition::wait(self.rule.first_wait(j) + usize::from(shift));
        }
        self.brought(
            self.rule.earlier_component(j, shift, self.arrival.gap),
            becomes,
        )
    }

    // Fills in the conditions of record j, at each of its shifts, over those of earlier records.
    fn fill_shifts(
        &self,
        j: usize,
        becomes: &[Condition],
        earlier: &[Condition],
        own: &mut [Condition],
    )
        requires within { j < length (records self.now.rule.now) }
        requires few { length own.old ≤ 256 }
        ensures { own.new ≡ map (conditioned (records self.now.rule.now) self.now.arrival.now.sample.letters self.now.arrival.now.gap self.now.before.now earlier.now becomes.now j) (range_with_len 0 (length own.old)) }
    {
        let record = self.rule.record(j);
        let left = self.argument(record.left(), earlier);
        let right = self.argument(record.right(), earlier);
        for (s, value) in own.iter_mut().enumerate() {
            let shift = s as u8;
            let across = self.given(j, shift, becomes);
            *value = evaluate(record, shift, &self.arrival.letters, left, right, across);
        }
    }

    // The condition of a record j that has no arguments: it looks at the letters alone.
    fn leaf(&self, j: usize) -> Condition
        requires { j < length (records self.now.rule.now) }
        ensures { result ≡ evaluated openly (row (records self.now.rule.now) j) 0 (lettered self.now.arrival.now.sample.letters) openly.never openly.never openly.never }
    {
        let never = Condition::never();
        let letters = &self.arrival.letters;
        evaluate(self.rule.record(j), 0, letters, never, never, never)
    }

    // Fills in the conditions of record j.
    fn fill_row(&self, j: usize, becomes: &[Condition], values: &mut [Condition])
        requires within { j < length (records self.now.rule.now) }
        requires room { components (records self.now.rule.now) ≤ length values.old }
        ensures { values.new ≡ onto (take (first_component (records self.now.rule.now) j) values.old ++ row_values (records self.now.rule.now) self.now.arrival.now.sample.letters self.now.arrival.now.gap self.now.before.now (take (first_component (records self.now.rule.now) j) values.old) becomes.now j) values.old }
    {
        let record = self.rule.record(j);
        let first = self.rule.first_component(j);
        if record.left().is_none() {
            values[first] = self.leaf(j);
            return;
        }
        let (earlier, rest) = values.split_at_mut(first);
        let shifts = usize::from(record.shifts());
        self.fill_shifts(j, becomes, earlier, &mut rest[..shifts]);
    }

    // The component at the new point that the wait of record j at a shift becomes, if there is one.
    fn renewed_from(&self, j: usize, shift: u8) -> Option<usize>
        ensures { (vs : List Condition) → at_shift_or (among vs) openly.never result ≡ renewed openly (row (records self.now.rule.now) j) self.now.arrival.now.gap (λ a s. among vs (first_component (records self.now.rule.now) a + s)) j shift }
    {
        let minutes = self.arrival.gap?;
        match self.rule.record(j) {
            Record::Next(interval, a) if interval.contains(minutes) => {
                Some(self.rule.first_component(usize::from(a)))
            }
            Record::Until(interval, _, _) => {
                let to = interval.moved(shift, minutes)?;
                Some(self.rule.first_component(j) + usize::from(to))
            }
            _ => None,
        }
    }

    // Fills in what the waits of record j become, at each of its shifts, over the conditions of the records up to it.
    fn renew_shifts(&self, j: usize, values: &[Condition], own: &mut [Condition])
        requires { length own.old ≤ 256 }
        ensures { own.new ≡ map (renewed openly (row (records self.now.rule.now) j) self.now.arrival.now.gap (λ a s. among values.now (first_component (records self.now.rule.now) a + s)) j) (range_with_len 0 (length own.old)) }
    {
        for (s, wait) in own.iter_mut().enumerate() {
            put_or_never(wait, values, self.renewed_from(j, s as u8));
        }
    }

    // Fills in what the waits of record j become.
    fn renew_row(&self, j: usize, values: &[Condition], becomes: &mut [Condition])
        requires within { j < length (records self.now.rule.now) }
        requires room { waits (records self.now.rule.now) ≤ length becomes.old }
        ensures { becomes.new ≡ onto (take (first_wait (records self.now.rule.now) j) becomes.old ++ row_waits (records self.now.rule.now) self.now.arrival.now.gap values.now j) becomes.old }
    {
        let waits = usize::from(self.rule.record(j).own_waits());
        let (_, rest) = becomes.split_at_mut(self.rule.first_wait(j));
        self.renew_shifts(j, values, &mut rest[..waits]);
    }
}

// Puts the condition at a place among some, or never where there is none. It is put in its place at once, where one that is answered
// would be copied twice.
fn put_or_never(to: &mut Condition, values: &[Condition], which: Option<usize>)
    ensures { to.new ≡ before openly values.now which }
{
    match which.and_then(|c| values.get(c)) {
        Some(value) => *to = *value,
        None => *to = Condition::never(),
    }
}

// Fills in the conditions of all components at the new point, and what the waits become there.
pub(crate) fn fill(
    rule: &Rule,
    arrival: &Arrival,
    before: &[Condition],
    values: &mut [Condition],
    becomes: &mut [Condition],
)
    requires values { components (records rule.now) ≤ length values.old }
    requires becomes { waits (records rule.now) ≤ length becomes.old }
    ensures values { values.new ≡ onto (filled (records rule.now) arrival.now.sample.letters arrival.now.gap before.now (length (records rule.now))).values values.old }
    ensures becomes { becomes.new ≡ onto (filled (records rule.now) arrival.now.sample.letters arrival.now.gap before.now (length (records rule.now))).becomes becomes.old }
{
    let filling = Filling {
        rule,
        arrival,
        before,
    };
    for j in 0..rule.len() {
        let known = rule.first_wait(j);
        filling.fill_row(j, &becomes[..known], values);
        let filled = rule.first_component(j + 1);
        filling.renew_row(j, &values[..filled], becomes);
    }
}

// The work of a step on the shelf: the newest values at its front, and behind them those of the point before.
ghost use Rattle.std.specs.Prelude.{◌≡◌, ◌+◌, ◌*◌, ◌<◌, ◌≤◌, ◌++◌, map, length, take, drop, slice_index_or};
ghost use Rattle.std.specs.List.{range_with_len};
ghost use Rattle.rule.specs.Components.{components, first_component};
ghost use Rattle.rule.specs.Reading.{records};
ghost use Rattle.rule.specs.declared.record.Record.TheVariants.{True};
ghost use Rattle.instant.specs.Step.{advanced, argument, is_first, kept, newest, row, ruled, valued};
ghost use Rattle.feed.specs.Lists.{onto};

use crate::value::{evaluate, value_or_never};
use rule::Rule;
use truth::Truth;

// What a step computes with: the rule, the gap from the point before (a first point has none), the letters, and the values of all
// components at the point before.
#[derive(Clone, Copy)]
struct Step<'a, T> {
    rule: &'a Rule,
    gap: Option<u32>,
    letters: &'a [T],
    before: &'a [T],
}

impl<T: Truth + Copy> Step<'_, T> {
    // The newest value of a record's argument; never where it has none.
    fn argument(&self, which: Option<u8>, values: &[T]) -> T
        ensures { result ≡ argument T.Truth.ops (records self.now.rule.now) values.now which }
    {
        value_or_never(
            values,
            which.map(|a| self.rule.first_component(usize::from(a))),
        )
    }

    // Fills in the newest values of record j, at each of its shifts, over those of earlier records.
    fn fill_shifts(&self, j: usize, earlier: &[T], own: &mut [T])
        requires { length own.old ≤ 256 }
        ensures { own.new ≡ map (λ s. valued T.Truth.ops (records self.now.rule.now) self.now.letters.now self.now.gap earlier.now self.now.before.now (slice_index_or (records self.now.rule.now) j True) (first_component (records self.now.rule.now) j) s) (range_with_len 0 (length own.old)) }
    {
        let record = self.rule.record(j);
        let left = self.argument(record.left(), earlier);
        let right = self.argument(record.right(), earlier);
        for (s, value) in own.iter_mut().enumerate() {
            let shift = s as u8;
            let before = self.rule.earlier_component(j, shift, self.gap);
            let across = value_or_never(self.before, before);
            *value = evaluate(record, shift, self.letters, left, right, across);
        }
    }

    // Fills in the newest values of record j.
    fn fill_row(&self, j: usize, values: &mut [T])
        requires within { j < length (records self.now.rule.now) }
        requires room { components (records self.now.rule.now) ≤ length values.old }
        ensures { values.new ≡ onto (take (first_component (records self.now.rule.now) j) values.old ++ row T.Truth.ops (records self.now.rule.now) self.now.letters.now self.now.gap (take (first_component (records self.now.rule.now) j) values.old) self.now.before.now (slice_index_or (records self.now.rule.now) j True)) values.old }
    {
        let shifts = usize::from(self.rule.record(j).shifts());
        let (earlier, rest) = values.split_at_mut(self.rule.first_component(j));
        self.fill_shifts(j, earlier, &mut rest[..shifts]);
    }

    // Fills in the newest values of all records.
    fn fill(&self, values: &mut [T])
        requires { components (records self.now.rule.now) ≤ length values.old }
        ensures { values.new ≡ onto (newest T.Truth.ops (records self.now.rule.now) self.now.letters.now self.now.gap self.now.before.now) values.old }
    {
        for j in 0..self.rule.len() {
            self.fill_row(j, values);
        }
    }
}

// What stands behind the newest values: those of the point before, or never at a first point.
fn keep<T: Truth + Copy>(first: bool, values: &[T], before: &mut [T])
    requires { length values.now ≡ length before.old }
    ensures { before.new ≡ kept T.Truth.ops first (length values.now) values.now }
{
    if first {
        for value in before.iter_mut() {
            *value = T::never();
        }
    } else {
        before.copy_from_slice(values);
    }
}

// Keeps the values of the point before, and fills in the newest ones; a first point has no gap.
fn renew<T: Truth + Copy>(
    rule: &Rule,
    gap: Option<u32>,
    letters: &[T],
    values: &mut [T],
    before: &mut [T],
)
    requires newest { length values.old ≡ components (records rule.now) }
    requires before { length before.old ≡ components (records rule.now) }
    ensures before { before.new ≡ kept T.Truth.ops (is_first gap) (length values.old) values.old }
    ensures newest { values.new ≡ onto (newest T.Truth.ops (records rule.now) letters.now gap before.new) values.old }
{
    keep(gap.is_none(), values, before);
    let step = Step {
        rule,
        gap,
        letters,
        before,
    };
    step.fill(values);
}

// The whole step on the shelf.
pub(crate) fn advance<T: Truth + Copy>(
    rule: &Rule,
    gap: Option<u32>,
    letters: &[T],
    shelf: &mut [T],
)
    requires { 2 * components (records rule.now) ≤ length shelf.old }
    ensures { shelf.new ≡ advanced T.Truth.ops (records rule.now) gap letters.now shelf.old }
{
    let n = rule.components();
    let (values, behind) = shelf.split_at_mut(n);
    renew(rule, gap, letters, values, &mut behind[..n]);
}

// The value of the last record, which is the rule, among those of all components; never where it is not there.
pub fn last_value<T: Truth + Copy>(rule: &Rule, values: &[T]) -> T
    ensures { result ≡ ruled T.Truth.ops (records rule.now) values.now }
{
    value_or_never(values, Some(rule.first_component(rule.len() - 1)))
}

// The value of a record, one text for every kind of truth.
ghost use Rattle.std.specs.Prelude.{◌≡◌};
ghost use Rattle.instant.specs.Step.{before, lettered};
ghost use Rattle.logic.specs.Steps.{evaluated};
ghost use Rattle.logic.specs.Values.{stepped};

use rule::{Interval, Record};
use truth::Truth;

// The value at a place among some, if there is such a place; never else.
pub fn value_or_never<T: Truth + Copy>(values: &[T], place: Option<usize>) -> T
    ensures { result ≡ before T.Truth.ops values.now place }
{
    place
        .and_then(|at| values.get(at))
        .copied()
        .unwrap_or(T::never())
}

// A since or an until at a shift: right, if the interval has begun, or left and what lies across the gap.
fn step_of<T: Truth + Copy>(interval: Interval, shift: u8, left: T, right: T, across: T) -> T
    ensures { result ≡ stepped T.Truth.ops interval shift left right across }
{
    let here = if interval.begun(shift) {
        right
    } else {
        T::never()
    };
    here.either(left.both(across))
}

// The value of a record at a shift, from the letters at the newest point, the values of its arguments there, and what lies
// across the gap: one point before for a previous or a since, the wait for a next or an until. A letter that is not given
// is never.
pub fn evaluate<T: Truth + Copy>(
    of: Record,
    shift: u8,
    letters: &[T],
    left: T,
    right: T,
    across: T,
) -> T
    ensures { result ≡ evaluated T.Truth.ops of shift (lettered T.Truth.ops letters.now) left right across }
{
    match of {
        Record::True => T::always(),
        Record::Letter(l) => value_or_never(letters, Some(usize::from(l))),
        Record::Not(_) => left.not(),
        Record::And(_, _) => left.both(right),
        Record::Or(_, _) => left.either(right),
        Record::Previous(_, _) | Record::Next(_, _) => across,
        Record::Since(interval, _, _) | Record::Until(interval, _, _) => {
            step_of(interval, shift, left, right, across)
        }
    }
}

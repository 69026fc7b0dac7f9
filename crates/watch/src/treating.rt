// A draw treats points in turn: each is settled, joined to one that is held, or held.
ghost use Rattle.std.specs.Prelude.{◌≡◌, ◌+◌, ◌<◌, ◌≤◌, [], ◌∷◌, ◌++◌, length, take, set, slice_index_or};
ghost use Rattle.feed.specs.Lists.{onto};
ghost use Rattle.logic.specs.Draws.{carried_points, found, treated_all};
ghost use Rattle.logic.specs.declared.verdict.HeldPoint.{HeldPoint};
ghost use Rattle.watch.specs.Treatments.{untreated, verdict_on};

use crate::carrying::carry_all;
use logic::{HeldPoint, Line, Point};
use truth::{Condition, Truth};

// The held point that has the condition, if there is one.
fn find(held: &[HeldPoint], condition: &Condition) -> Option<Point>
    ensures { result ≡ found condition.now held.now }
{
    held.iter()
        .find(|held| condition.same(&held.condition))
        .map(|held| held.point)
}

// What is said of a point beside those that are held; none where it is held too.
fn verdict_on(point: &HeldPoint, held: &[HeldPoint]) -> Option<Line>
    ensures { result ≡ verdict_on held.now point.now }
{
    if point.condition.is_always() {
        return Some(Line::True(point.point));
    }
    if point.condition.is_never() {
        return Some(Line::False(point.point));
    }
    find(held, &point.condition).map(|earlier| Line::Joined {
        later: point.point,
        earlier,
    })
}

// Puts the point at a place of a table in another place. Its parts go one by one, each in registers, without a call of `memmove`.
fn move_point(points: &mut [HeldPoint], from: usize, to: usize)
    requires from { from < length points.old }
    requires to { to < length points.old }
    ensures { (d : HeldPoint) → points.new ≡ set points.old to (slice_index_or points.old from d) }
{
    let HeldPoint { point, condition } = points[from];
    let place = &mut points[to];
    place.point = point;
    place.condition = condition;
}

// Treats points in turn, and answers how many stay held. Those go to the front of the points, and the lines of the others to
// the front of the tray. All is done in place, since a table of conditions is too big to be copied.
fn treat_all(points: &mut [HeldPoint], tray: &mut [Line]) -> usize
    requires { length points.old ≤ length tray.old }
    ensures held { take result points.new ≡ (treated_all untreated points.old).held }
    ensures lines { tray.new ≡ onto (treated_all untreated points.old).lines tray.old }
    ensures sum { result + length (treated_all untreated points.old).lines ≡ length points.old }
{
    let mut count = 0;
    for i in 0..points.len() {
        match verdict_on(&points[i], &points[0..count]) {
            Some(line) => tray[i - count] = line,
            None => {
                move_point(points, i, count);
                count += 1;
            }
        }
    }
    count
}

// The first `count` points of a table, carried by what the first `waits` waits become, and then the new point, are each
// treated once. The answer is how many stay held.
pub(crate) fn treat_with(
    held: &mut [HeldPoint],
    count: usize,
    becomes: &[Condition],
    waits: usize,
    new: HeldPoint,
    tray: &mut [Line],
) -> usize
    requires waits { waits ≤ length becomes.now }
    requires room { count < length held.old }
    requires tray { count < length tray.old }
    ensures held { take result held.new ≡ (treated_all untreated (carried_points (take waits becomes.now) (take count held.old) ++ (new ∷ []))).held }
    ensures lines { tray.new ≡ onto (treated_all untreated (carried_points (take waits becomes.now) (take count held.old) ++ (new ∷ []))).lines tray.old }
    ensures sum { result + length (treated_all untreated (carried_points (take waits becomes.now) (take count held.old) ++ (new ∷ []))).lines ≡ count + 1 }
{
    carry_all(&mut held[..count], &becomes[..waits]);
    held[count] = new;
    treat_all(&mut held[..=count], tray)
}

// Held points are carried to a new point.
ghost use Rattle.std.specs.Prelude.{◌≡◌};
ghost use Rattle.logic.specs.Draws.{carried_points};

use logic::HeldPoint;
use truth::Condition;

// Carries points: the condition of each is replaced by its carried one, by what the waits have become.
pub(crate) fn carry_all(points: &mut [HeldPoint], becomes: &[Condition])
    ensures { points.new ≡ carried_points becomes.now points.old }
{
    for point in points {
        point.condition = point.condition.replaced(becomes);
    }
}

// Where a new point stands after the newest one: whether it is late, its gap, and its name.
ghost use Rattle.std.specs.Prelude.{◌≡◌, if◌then◌else◌, Some, None, nat_lt};
ghost use Rattle.logic.specs.Draws.{gap_from, late, most_offsets, next_name, next_offset};

use logic::Point;

// Whether a stamp is below that of the newest point.
pub(crate) fn is_late(newest: Option<Point>, stamp: u32) -> bool
    ensures { result ≡ late newest stamp }
{
    newest.is_some_and(|point| stamp < point.stamp)
}

// The gap from the newest point, if there is one.
pub(crate) fn gap_from(newest: Option<Point>, stamp: u32) -> Option<u32>
    ensures { result ≡ gap_from newest stamp }
{
    newest.map(|point| stamp.saturating_sub(point.stamp))
}

// The name of a new point at a stamp; none where that stamp has no offset left.
pub(crate) fn next_point(newest: Option<Point>, stamp: u32) -> Option<Point>
    ensures { result ≡ (if nat_lt (next_offset newest stamp) most_offsets then Some (next_name newest stamp) else None) }
{
    let offset = match newest {
        Some(point) if point.stamp == stamp => point.offset.checked_add(1)?,
        _ => 0,
    };
    Some(Point { stamp, offset })
}

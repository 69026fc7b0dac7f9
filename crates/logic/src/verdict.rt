// What is said of accepted points.
use truth::Condition;

// The name of an accepted point, written stamp:offset. The offset counts from 0 among the points of that stamp.
#[derive(Clone, Copy, PartialEq, Eq, Debug, Default)]
pub struct Point {
    pub stamp: u32,
    pub offset: u16,
}

// A line about one point, or about two that have the same open condition.
#[derive(Clone, Copy, PartialEq, Eq, Debug)]
pub enum Line {
    True(Point),
    False(Point),
    Joined { later: Point, earlier: Point },
}

// A point whose outcome still hangs on later samples, with its open condition.
#[derive(Clone, Copy)]
pub struct HeldPoint {
    pub point: Point,
    pub condition: Condition,
}

// The calls that a fitted watch permits, and what they answer.
use logic::{DrawRefusal, Point};

// A draw with a tray of so many lines, or a read-out.
#[derive(Clone, Copy, PartialEq, Eq, Debug)]
pub enum Call {
    Draw(usize),
    Drawn,
    Accepted,
    TurnedAway,
    Held,
    HeldPoint(usize),
}

// What a call answers: a draw, a count, or the name of a held point.
#[derive(Clone, Copy, PartialEq, Eq, Debug)]
pub enum Answer {
    Draw(Result<usize, DrawRefusal>),
    Count(usize),
    Point(Option<Point>),
}

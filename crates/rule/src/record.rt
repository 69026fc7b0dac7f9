// The records of a rule table.
ghost use Rattle.std.specs.Prelude.{◌≡◌, ◌≤◌};
ghost use Rattle.rule.specs.Components.{left_of, looks_ahead, own_waits, right_of, shifts};

use crate::interval::Interval;

// A record; its arguments are the numbers of earlier records, counted from 0.
#[derive(Clone, Copy, PartialEq, Eq, Debug)]
pub enum Record {
    True,
    Letter(u8),
    Not(u8),
    And(u8, u8),
    Or(u8, u8),
    Previous(Interval, u8),
    Since(Interval, u8, u8),
    Next(Interval, u8),
    Until(Interval, u8, u8),
}

impl Record {
    // How many shifts the record has; a component is a record at one of its shifts.
    pub fn shifts(self) -> u16
        ensures value { result ≡ shifts self }
        ensures bound { result ≤ 256 }
    {
        match self {
            Record::Since(interval, _, _) | Record::Until(interval, _, _) => {
                u16::from(interval.last_shift()) + 1
            }
            _ => 1,
        }
    }

    // The number of the record's first argument, if it has one.
    pub fn left(self) -> Option<u8>
        ensures { result ≡ left_of self }
    {
        match self {
            Record::True | Record::Letter(_) => None,
            Record::Not(a) | Record::And(a, _) | Record::Or(a, _) => Some(a),
            Record::Previous(_, a) | Record::Since(_, a, _) => Some(a),
            Record::Next(_, a) | Record::Until(_, a, _) => Some(a),
        }
    }

    // The number of the record's second argument, if it has two.
    pub fn right(self) -> Option<u8>
        ensures { result ≡ right_of self }
    {
        match self {
            Record::And(_, b) | Record::Or(_, b) => Some(b),
            Record::Since(_, _, b) | Record::Until(_, _, b) => Some(b),
            _ => None,
        }
    }

    // Whether the record is a future operator.
    pub fn looks_ahead(self) -> bool
        ensures { result ≡ looks_ahead self }
    {
        matches!(self, Record::Next(_, _) | Record::Until(_, _, _))
    }

    // How many waits the record has of its own.
    pub fn own_waits(self) -> u16
        ensures value { result ≡ own_waits self }
        ensures bound { result ≤ 256 }
    {
        match self {
            Record::Next(_, _) => 1,
            Record::Until(_, _, _) => self.shifts(),
            _ => 0,
        }
    }
}

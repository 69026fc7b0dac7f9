// One record: the questions that it is asked, and what its bytes say.
ghost use Rattle.std.specs.Prelude.{◌≡◌};
ghost use Rattle.rule.specs.Records.{checked, interval_allowed, interval_of, record_of};

use crate::interval::Interval;
use crate::limits::{LAST_LETTER, LONGEST_INTERVAL, NO_END};
use crate::record::Record;
use crate::refusal::RuleRefusal;

// The five bytes of a record.
#[derive(Clone, Copy)]
pub(crate) struct Fields {
    pub(crate) kind: u8,
    pub(crate) left: u8,
    pub(crate) right: u8,
    pub(crate) low: u8,
    pub(crate) high: u8,
}

impl Fields {
    // Whether the last two bytes are an interval.
    fn interval_allowed(self) -> bool
        ensures { result ≡ interval_allowed self.low self.high }
    {
        self.low <= LONGEST_INTERVAL
            && self.low <= self.high
            && (self.high <= LONGEST_INTERVAL || self.high == NO_END)
    }

    // The first question that they do not pass as record number `j`, if any.
    pub(crate) fn check(self, j: u8) -> Result<(), RuleRefusal>
        ensures { result ≡ checked j self.kind self.left self.right self.low self.high }
    {
        let Fields {
            kind,
            left,
            right,
            low,
            high,
        } = self;
        match kind {
            9..=255 => Err(RuleRefusal::Kind),
            2 | 5 | 7 if left >= j => Err(RuleRefusal::Argument),
            3 | 4 | 6 | 8 if left >= j || right >= j => Err(RuleRefusal::Argument),
            0 if left != 0 || right != 0 || low != 0 || high != 0 => Err(RuleRefusal::Field),
            1 if left > LAST_LETTER || right != 0 || low != 0 || high != 0 => {
                Err(RuleRefusal::Field)
            }
            2 if right != 0 || low != 0 || high != 0 => Err(RuleRefusal::Field),
            3..=4 if low != 0 || high != 0 => Err(RuleRefusal::Field),
            5 | 7 if right != 0 => Err(RuleRefusal::Field),
            5..=8 if !self.interval_allowed() => Err(RuleRefusal::Interval),
            _ => Ok(()),
        }
    }

    // The interval of the last two bytes.
    fn interval(self) -> Interval
        ensures { result ≡ interval_of self.low self.high }
    {
        Interval {
            low: self.low,
            high: (self.high != NO_END).then_some(self.high),
        }
    }

    // The record that they say, once they have passed the check.
    pub(crate) fn record(self) -> Record
        ensures { result ≡ record_of self.kind self.left self.right self.low self.high }
    {
        let Fields { left, right, .. } = self;
        match self.kind {
            0 => Record::True,
            1 => Record::Letter(left),
            2 => Record::Not(left),
            3 => Record::And(left, right),
            4 => Record::Or(left, right),
            5 => Record::Previous(self.interval(), left),
            6 => Record::Since(self.interval(), left, right),
            7 => Record::Next(self.interval(), left),
            _ => Record::Until(self.interval(), left, right),
        }
    }
}

// Intervals of minutes, and the shifts by which they are seen later.
ghost use Rattle.std.specs.Prelude.{◌≡◌};
ghost use Rattle.rule.specs.Intervals.{within, last_shift, moved, begun};

// From `low` to `high` minutes, both included; a `high` of `None` stands for no upper end.
#[derive(Clone, Copy, PartialEq, Eq, Debug)]
pub struct Interval {
    pub low: u8,
    pub high: Option<u8>,
}

impl Interval {
    // Whether a number of minutes lies in the interval.
    pub fn contains(self, minutes: u32) -> bool
        ensures { result ≡ within self minutes }
    {
        u32::from(self.low) <= minutes && self.high.is_none_or(|high| minutes <= u32::from(high))
    }

    // The last of the shifts that a since or an until with this interval has.
    pub fn last_shift(self) -> u8
        ensures { result ≡ last_shift self }
    {
        self.high.unwrap_or(self.low)
    }

    // The shift to which a gap moves a shift, or none if that is expired.
    pub fn moved(self, shift: u8, gap: u32) -> Option<u8>
        ensures { result ≡ moved self shift gap }
    {
        match u8::try_from(u64::from(shift) + u64::from(gap)) {
            Ok(to) if to <= self.last_shift() => Some(to),
            _ => self.high.is_none().then_some(self.low),
        }
    }

    // Whether the interval at a shift begins at 0.
    pub fn begun(self, shift: u8) -> bool
        ensures { result ≡ begun self shift }
    {
        self.low <= shift
    }
}

// The parts of a rule: its records, and the numbers of their components and waits.
ghost use Rattle.std.specs.Prelude.{◌≡◌, ◌^◌, ◌<◌, ◌≤◌, [], ◌∷◌, length, slice_index_or};
ghost use Rattle.rule.specs.Components.{any_ahead, components, earlier, first_component, first_wait, waits};
ghost use Rattle.rule.specs.Reading.{records};

use crate::limits::MOST_RECORDS;
use crate::record::Record;
use crate::table::Rule;

impl Rule {
    // The rule true, which a watch has before its first fitting.
    pub fn always() -> Rule
        ensures { records result ≡ Record.True ∷ [] }
    {
        Rule::of([Record::True; MOST_RECORDS], 1)
    }

    // The records, the first one first.
    pub fn records(&self) -> &[Record]
        ensures { result.now ≡ records self.now }
    {
        &self.table[..self.len]
    }

    // How many records there are.
    pub fn len(&self) -> usize
        ensures value { result ≡ length (records self.now) }
        ensures some { 0 < result }
        ensures bound { result ≤ 32 }
    {
        self.len
    }

    // Record number j, or the record true where there are fewer.
    pub fn record(&self, j: usize) -> Record
        ensures { result ≡ slice_index_or (records self.now) j Record.True }
    {
        self.records().get(j).copied().unwrap_or(Record::True)
    }

    // How many components there are.
    pub fn components(&self) -> usize
        ensures value { result ≡ components (records self.now) }
        ensures bound { result < 2 ^ 16 }
    {
        self.components.total()
    }

    // The number of the first component of record j, or how many components there are where there are fewer records.
    pub fn first_component(&self, j: usize) -> usize
        ensures value { result ≡ first_component (records self.now) j }
        ensures bound { result < 2 ^ 16 }
    {
        self.components.first(j)
    }

    // How many waits there are.
    pub fn waits(&self) -> usize
        ensures value { result ≡ waits (records self.now) }
        ensures bound { result < 2 ^ 16 }
    {
        self.waits.total()
    }

    // The number of the first wait of record j, or how many waits there are where there are fewer records.
    pub fn first_wait(&self, j: usize) -> usize
        ensures value { result ≡ first_wait (records self.now) j }
        ensures bound { result < 2 ^ 16 }
    {
        self.waits.first(j)
    }

    // Whether there is a future operator.
    pub fn looks_ahead(&self) -> bool
        ensures { result ≡ any_ahead (records self.now) }
    {
        self.waits() > 0
    }

    // The component of the point before that record j at a shift rests on: none at a first point, which has no gap, where
    // the gap does not fit, and at an expired shift.
    pub fn earlier_component(&self, j: usize, shift: u8, gap: Option<u32>) -> Option<usize>
        ensures { result ≡ earlier (records self.now) (slice_index_or (records self.now) j Record.True) (first_component (records self.now) j) shift gap }
    {
        let minutes = gap?;
        match self.record(j) {
            Record::Previous(interval, a) if interval.contains(minutes) => {
                Some(self.first_component(usize::from(a)))
            }
            Record::Since(interval, _, _) => {
                let to = interval.moved(shift, minutes)?;
                Some(self.first_component(j) + usize::from(to))
            }
            _ => None,
        }
    }
}

// The numbers of components and waits in a table.
ghost use Rattle.std.specs.Prelude.{◌≡◌, ℕ, ◌^◌, ◌<◌, ◌≤◌, length, slice_index_or};
ghost use Rattle.rule.specs.declared.record.Record.{Record};
ghost use Rattle.rule.specs.Components.{own_waits, shifts, Numbered};

use crate::limits::MOST_RECORDS;
use crate::record::Record;
use std::marker::PhantomData;

// What is numbered through a table, and how many of it a record has.
pub(crate) trait Counted {
    ghost counted: { Record → ℕ };

    fn count(r: Record) -> u16
        ensures value { result ≡ counted r }
        ensures bound { result ≤ 256 };
}

// A component is a record at one of its shifts.
#[derive(Clone, Copy)]
pub(crate) struct Components;

impl Counted for Components {
    ghost counted = { shifts };

    fn count(r: Record) -> u16 {
        r.shifts()
    }
}

// A wait is a component of a future operator.
#[derive(Clone, Copy)]
pub(crate) struct Waits;

impl Counted for Waits {
    ghost counted = { own_waits };

    fn count(r: Record) -> u16 {
        r.own_waits()
    }
}

// The number of the first component or wait of each record, and how many there are, which also stands in the places past
// the last record.
#[derive(Clone, Copy)]
pub(crate) struct Numbers<C> {
    first: [u16; MOST_RECORDS],
    total: u16,
    of: PhantomData<C>,
}

impl<C: Counted> Numbers<C> {
    // Numbers the records of a table.
    pub(crate) fn of(records: &[Record]) -> Numbers<C>
        requires { length records.now ≤ 32 }
        ensures { Numbered C.counted records.now result }
    {
        let mut first = [0; MOST_RECORDS];
        let mut total = 0;
        for (j, place) in first.iter_mut().enumerate() {
            *place = total;
            if let Some(record) = records.get(j) {
                total += C::count(*record);
            }
        }
        Numbers {
            first,
            total,
            of: PhantomData,
        }
    }

    // The number of the first of record j, or how many there are where there are fewer records.
    pub(crate) fn first(&self, j: usize) -> usize
        ensures value { result ≡ slice_index_or self.now.first j self.now.total }
        ensures bound { result < 2 ^ 16 }
    {
        usize::from(self.first.get(j).copied().unwrap_or(self.total))
    }

    // How many there are.
    pub(crate) fn total(&self) -> usize
        ensures value { result ≡ self.now.total }
        ensures bound { result < 2 ^ 16 }
    {
        usize::from(self.total)
    }
}

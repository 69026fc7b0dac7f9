// A rule: the records that were read, and the numbers of their components and waits.
ghost use Rattle.std.specs.Prelude.{◌≡◌, ◌<◌, ◌≤◌, length, take};
ghost use Rattle.rule.specs.Components.{own_waits, shifts, Numbered};
ghost use Rattle.rule.specs.Records.{Sound};

use crate::limits::MOST_RECORDS;
use crate::numbers::{Components, Numbers, Waits};
use crate::record::Record;

// The last record is the rule; the others are its parts. A rule has fixed memory and is copied, so it has room for all the
// records that there can be, with a length.
#[derive(Clone, Copy)]
pub struct Rule {
    pub(crate) table: [Record; MOST_RECORDS],
    pub(crate) len: usize,
    pub(crate) components: Numbers<Components>,
    pub(crate) waits: Numbers<Waits>,
    ghost long: { length table ≡ 32 },
    ghost some: { 0 < len },
    ghost room: { len ≤ 32 },
    ghost sound: { Sound (take len table) },
    ghost components_numbered: { Numbered shifts (take len table) components },
    ghost waits_numbered: { Numbered own_waits (take len table) waits },
}

impl Rule {
    // The rule of the first `len` records of a table.
    pub(crate) fn of(table: [Record; MOST_RECORDS], len: usize) -> Rule
        requires some { 0 < len }
        requires room { len ≤ 32 }
        requires sound { Sound (take len table) }
        ensures table { result.table ≡ table }
        ensures len { result.len ≡ len }
    {
        let records = &table[..len];
        let components = Numbers::of(records);
        let waits = Numbers::of(records);
        Rule {
            table,
            len,
            components,
            waits,
        }
    }
}

// The state of a look-ahead watch.
ghost use Rattle.std.specs.Prelude.{◌≡◌, ◌+◌, ◌≤◌, length};
ghost use Rattle.rule.specs.Components.{components, waits};
ghost use Rattle.rule.specs.Limits.{most_components, most_slots, most_waits};
ghost use Rattle.rule.specs.Reading.{records};

use crate::arrival::Arrival;
use logic::{HeldPoint, Point};
use rule::{MOST_COMPONENTS, MOST_SLOTS, MOST_WAITS, Rule};
use truth::Condition;

// A draw treats the points held before it, and one more: a tray of so many lines has room for any draw.
pub const MOST_TREATED: usize = MOST_SLOTS + 1;

// A fitted rule and its number of slots; the counts of entries drawn, accepted and turned away; the newest point, if there is
// one; the open conditions of all components there; and the table of held points, of which the first `count` are in use.
// Then room for a draw to work in: the sample that arrives, the conditions at its point, what the waits become there, and the
// held points as they were.
#[derive(Clone, Copy)]
pub struct Watch {
    pub(crate) rule: Rule,
    pub(crate) slots: usize,
    pub(crate) drawn: u32,
    pub(crate) accepted: u32,
    pub(crate) turned_away: u32,
    pub(crate) newest: Option<Point>,
    pub(crate) values: [Condition; MOST_COMPONENTS],
    pub(crate) held: [HeldPoint; MOST_TREATED],
    pub(crate) count: usize,
    pub(crate) arrival: Arrival,
    pub(crate) fresh: [Condition; MOST_COMPONENTS],
    pub(crate) becomes: [Condition; MOST_WAITS],
    pub(crate) saved: [HeldPoint; MOST_TREATED],
    ghost few_waits: { waits (records rule) ≤ most_waits },
    ghost few_components: { components (records rule) ≤ most_components },
    ghost slots_some: { 1 ≤ slots },
    ghost slots_few: { slots ≤ most_slots },
    ghost values_long: { length values ≡ most_components },
    ghost held_long: { length held ≡ most_slots + 1 },
    ghost held_few: { count ≤ slots },
    ghost accepted_drawn: { accepted ≤ drawn },
    ghost turned_drawn: { turned_away ≤ drawn },
    ghost fresh_long: { length fresh ≡ most_components },
    ghost becomes_long: { length becomes ≡ most_waits },
    ghost saved_long: { length saved ≡ most_slots + 1 },
}

// Feeds: lists of entries still to come, drawn one at a time.
#![tactic(auto)]

mod entry;
mod layer;
mod minute;
mod pattern;
mod record_feed;
mod shift;
mod source;

pub use entry::{Cause, Content, Entry, Fault, LETTERS, Sample};
pub use layer::{Layer, Turn, layers_stand};
pub use minute::{Minute, ToMinutes, minutes_stand};
pub use pattern::{Pattern, PatternRefusal, patterns_stand};
pub use record_feed::{RecordFeed, entries_stand};
pub use shift::{Shift, ShiftBy, shifts_stand};
pub use source::Feed;

#[cfg(test)]
mod tests;

// Rules: the table of five-byte records, read and checked, and the numbers of its components and waits.
#![tactic(auto)]

mod check;
mod interval;
mod limits;
mod numbers;
mod parts;
mod read;
mod record;
mod refusal;
mod table;

pub use interval::Interval;
pub use limits::{
    LAST_LETTER, LONGEST_INTERVAL, MOST_COMPONENTS, MOST_RECORDS, MOST_SLOTS, MOST_WAITS, NO_END,
    RECORD_BYTES,
};
pub use read::tables_are_sound;
pub use record::Record;
pub use refusal::RuleRefusal;
pub use table::Rule;

#[cfg(test)]
mod tests;

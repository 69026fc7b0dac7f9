// What the benchmark measures: a whole run of draws from a pattern, as a function for programs of other languages.
#![tactic(auto)]

mod judging;
mod run;
mod tally;

pub use run::{Counts, speed_judge, speed_watch_bytes};

// The look-ahead watch: it judges every sample by its rule, holds open questions, and joins those that are the same.
#![tactic(auto)]

mod accepting;
mod arrival;
mod call;
mod carrying;
mod draw;
mod drawing;
mod fill;
mod fitting;
mod fronts;
mod letters;
mod naming;
mod readouts;
mod runs;
mod treating;
mod watch;

pub use call::{Answer, Call};
pub use watch::{MOST_TREATED, Watch};

#[cfg(test)]
mod tests;

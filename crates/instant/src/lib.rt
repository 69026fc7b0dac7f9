// The instant watch: rules without future operators, judged at once in any kind of truth.
#![tactic(auto)]

mod calls;
mod judge;
mod readouts;
mod refusal;
mod shelf;
mod theorems;
mod value;
mod watch;

pub use refusal::StepRefusal;
pub use shelf::last_value;
pub use theorems::runs_are_witnessed;
pub use value::{evaluate, value_or_never};
pub use watch::InstantWatch;

#[cfg(test)]
mod tests;

// Lines of text: all that the program can print, one line each, as bytes.
#![tactic(auto)]

mod report;
mod text;
mod write;

pub use report::{Counts, Report};
pub use text::TRAY;
pub use write::{decimals_stand, write_report};

#[cfg(test)]
mod tests;

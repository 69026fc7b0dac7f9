// What is printed: the lines of draws, of held points and of counts, and the whole print of a card.
#![tactic(auto)]

mod card;
mod ending;
mod putting;

pub use card::{MOST_CARD_BYTES, print_card};
pub use ending::{put_counts, put_held};
pub use putting::{put_draw, put_report};

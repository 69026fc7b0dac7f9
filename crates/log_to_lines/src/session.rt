// A card that is being judged by an instant watch: its state.
mod taking;

use instant::InstantWatch;
use rule::MOST_COMPONENTS;
pub use taking::MOST_LOG_BYTES;

// A shelf for the largest rule: twice its 64 components.
pub const SHELF: usize = 2 * MOST_COMPONENTS;

// The watch with its shelf, the offset of the newest point, and how many entries were accepted and turned away.
#[derive(Clone, Copy)]
pub struct Session {
    watch: InstantWatch,
    shelf: [bool; SHELF],
    offset: u16,
    accepted: u32,
    turned_away: u32,
}

#[cfg(test)]
mod tests;

// The limits of a rule; specs/Limits.antt has the same numbers for contracts.

// Letters are numbered from 0.
pub const LAST_LETTER: u8 = feed::LETTERS - 1;

// A low, and a high that is not `NO_END`, is at most this.
pub const LONGEST_INTERVAL: u8 = 20;

// The high that stands for no upper end.
pub const NO_END: u8 = 255;

pub const RECORD_BYTES: usize = 5;

pub const MOST_RECORDS: usize = 32;

// An open condition depends on no more.
pub const MOST_WAITS: usize = truth::WAITS;

pub const MOST_COMPONENTS: usize = 64;

pub const MOST_SLOTS: usize = 128;

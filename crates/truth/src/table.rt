// The table of an open condition, and its sizes.
ghost use Rattle.std.specs.Prelude.{◌≡◌, length};
ghost use Rattle.truth.specs.Words.{Fit, word_count};

// How many waits a condition can depend on.
pub const WAITS: usize = 10;

// A table has a bit for each of the settings of the waits, in words of 64 bits.
pub(super) const WORDS: usize = (1 << WAITS) / 64;

// A Boolean function of the waits: bit n % 64 of word n / 64 is its value at the setting n.
#[derive(Clone, Copy)]
pub struct Condition {
    pub(super) words: [u64; WORDS],
    ghost long: { length words ≡ word_count },
    ghost fit: { Fit words },
}

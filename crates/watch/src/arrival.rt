// A sample that arrives.
ghost use Rattle.std.specs.Prelude.{◌≡◌, map};
ghost use Rattle.std.specs.List.{range_with_len};
ghost use Rattle.feed.specs.Entries.{letter_count};
ghost use Rattle.logic.specs.Draws.{lettered};

use feed::{LETTERS, Sample};
use truth::Condition;

// The sample, its letters as conditions, and the gap from the point before, if there is one.
#[derive(Clone, Copy)]
pub(crate) struct Arrival {
    pub(crate) sample: Sample,
    pub(crate) letters: [Condition; LETTERS as usize],
    pub(crate) gap: Option<u32>,
    ghost spelled: { letters ≡ map (lettered sample.letters) (range_with_len 0 letter_count) },
}

// A feed of samples by a pattern: its state, and why a pattern is refused.
ghost use Rattle.std.specs.Prelude.{◌+◌, ◌-◌, ◌/◌, ◌^◌, ◌<◌, ◌≤◌};

mod making;

pub use making::patterns_stand;

// How many words a pattern has room for.
const MOST_WORDS: usize = 8;

// A feed of `count` samples, of which `next` are drawn. Sample k has the stamp first + k / per and the word number k % used.
// The words are in fixed memory, and a pattern can be copied.
#[derive(Clone, Copy)]
pub struct Pattern {
    first: u32,
    per: u32,
    words: [u16; MOST_WORDS],
    used: usize,
    count: u32,
    next: u32,
    ghost steps: { 1 ≤ per },
    ghost some: { 1 ≤ used },
    ghost room: { used ≤ 8 },
    ghost drawn: { next ≤ count },
    ghost last: { (0 < count → first + (count - 1) / per < 2 ^ 32) },
}

// Why a pattern is refused: the first question that is answered no.
#[derive(Clone, Copy, PartialEq, Eq, Debug)]
pub enum PatternRefusal {
    // Are there 1 to 8 words?
    WordCount = 31,
    // Has each word only letters?
    Word = 32,
    // Is there a sample to each stamp?
    PerStamp = 33,
    // Is the last stamp in range?
    LastStamp = 34,
}

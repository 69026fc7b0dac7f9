// A feed of samples by a pattern: making it and drawing from it.
ghost use Rattle.std.specs.Prelude.{◌≡◌, ℕ, List, [], Ok};
ghost use Rattle.feed.specs.Entries.{SoundFrom};
ghost use Rattle.feed.specs.Heights.{ground_low};
ghost use Rattle.feed.specs.Patterns.{Unchanged, all_letters, left_after, pattern_answer, pattern_entries, pattern_left, pattern_number};

use crate::entry::{Entry, LETTER_LIMIT, Sample};
use crate::pattern::{MOST_WORDS, Pattern, PatternRefusal};
use crate::source::Feed;

impl PatternRefusal {
    // The number of the question.
    pub fn number(self) -> u8
        ensures { result ≡ pattern_number self }
    {
        self as u8
    }
}

// Whether each word has only letters.
fn all_letters(words: &[u16]) -> bool
    ensures { result ≡ all_letters words.now }
{
    words.iter().all(|&w| w < LETTER_LIMIT)
}

impl Pattern {
    // A pattern of no samples.
    pub fn new() -> Pattern
        ensures { pattern_left result ≡ [] }
    {
        Pattern {
            first: 0,
            per: 1,
            words: [0; MOST_WORDS],
            used: 1,
            count: 0,
            next: 0,
        }
    }

    // Makes the pattern of `count` samples from the stamp `first`, `per` to a stamp, with the `words` in turn.
    // A refusal leaves the pattern as it was.
    pub fn make(
        &mut self,
        first: u32,
        per: u32,
        words: &[u16],
        count: u32,
    ) -> Result<(), PatternRefusal>
        ensures answer { result ≡ pattern_answer first per words.now count }
        ensures left { pattern_left self.new ≡ left_after first per words.now count (pattern_left self.old) }
        ensures kept { Unchanged result self.old self.new }
    {
        let used = words.len();
        if used == 0 || used > MOST_WORDS {
            return Err(PatternRefusal::WordCount);
        }
        if !all_letters(words) {
            return Err(PatternRefusal::Word);
        }
        if per == 0 {
            return Err(PatternRefusal::PerStamp);
        }
        if count > 0 && (count - 1) / per > u32::MAX - first {
            return Err(PatternRefusal::LastStamp);
        }
        let mut kept = [0; MOST_WORDS];
        kept[0..used].copy_from_slice(words);
        *self = Pattern {
            first,
            per,
            words: kept,
            used,
            count,
            next: 0,
        };
        Ok(())
    }
}

// The places of the entries of a pattern count from 0, and no sample has an upper bit.
pub fn patterns_stand()
    ensures { (s r : ℕ) (ws : List ℕ) (c : ℕ) → pattern_answer s r ws c ≡ Ok tt → SoundFrom 0 (pattern_entries s r ws c) }
{}

impl Feed for Pattern {
    ghost entries = { pattern_left };

    ghost level = { λ _. 0 };

    ghost low = { λ _. ground_low };

    fn draw(&mut self) -> Option<Entry> {
        if self.next >= self.count {
            return None;
        }
        let k = self.next;
        let sample = Sample {
            stamp: self.first + k / self.per,
            letters: self.words[k as usize % self.used],
        };
        self.next = k + 1;
        Some(Entry {
            place: k as u64,
            content: Ok(sample),
        })
    }

    fn has_entry(&self) -> bool {
        self.next < self.count
    }

    fn height(&self) -> u8 {
        0
    }
}

// What a feed gives: entries, which are samples or spoiled.
ghost use Rattle.std.specs.Prelude.{◌≡◌, map};
ghost use Rattle.std.specs.List.{range_with_len};
ghost use Rattle.feed.specs.Entries.{cause_number, letter_count, letter_of};

use std::array;

// How many letters there are.
pub const LETTERS: u8 = 12;

// A word below this has only letters.
pub(crate) const LETTER_LIMIT: u16 = 1 << LETTERS;

// What was seen at a stamp, in minutes. Letter k, from 0 to 11, is bit k of `letters`; the upper four bits are clear.
#[derive(Clone, Copy, PartialEq, Eq, Debug)]
pub struct Sample {
    pub stamp: u32,
    pub letters: u16,
}

// Why an entry is spoiled.
#[derive(Clone, Copy, PartialEq, Eq, Debug)]
pub enum Cause {
    // One of the upper four bits of the letters is set.
    UpperBits = 1,
    // The last record has too few bytes.
    ShortRecord = 2,
    // A layer has moved the stamp out of range.
    StampRange = 3,
}

// A cause, and the height of the feed that found it.
#[derive(Clone, Copy, PartialEq, Eq, Debug)]
pub struct Fault {
    pub cause: Cause,
    pub height: u8,
}

// What an entry holds: a sample, or it is spoiled by a fault.
pub type Content = Result<Sample, Fault>;

// What a feed gives at a place, counted from 0.
#[derive(Clone, Copy, PartialEq, Eq, Debug)]
pub struct Entry {
    pub place: u64,
    pub content: Content,
}

impl Sample {
    // Whether the sample has letter `k`.
    pub fn letter(self, k: u8) -> bool
        ensures { result ≡ letter_of self.letters k }
    {
        k < 16 && (self.letters >> k) % 2 == 1
    }

    // Whether the sample has each of the letters, from 0 on.
    pub fn spelled(self) -> [bool; LETTERS as usize]
        ensures { result ≡ map (letter_of self.letters) (range_with_len 0 letter_count) }
    {
        array::from_fn(|k| self.letter(k as u8))
    }
}

impl Cause {
    // The number under which the cause is reported.
    pub fn number(self) -> u8
        ensures { result ≡ cause_number self }
    {
        self as u8
    }
}

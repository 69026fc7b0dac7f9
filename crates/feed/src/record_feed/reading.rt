// A feed of six-byte records: making it and drawing from it.
ghost use Rattle.std.specs.Prelude.{◌≡◌, ℕ, ◌+◌, ◌*◌, ◌≤◌, List, length};
ghost use Rattle.feed.specs.Entries.{SoundFrom};
ghost use Rattle.feed.specs.Heights.{ground_low};
ghost use Rattle.feed.specs.Records.{entries_of, record_content};
ghost use Rattle.feed.specs.RecordFeeds.{to_come};

use crate::entry::{Cause, Content, Entry, Fault, LETTER_LIMIT, Sample};
use crate::record_feed::RecordFeed;
use crate::source::Feed;

// The content of a whole record: its sample, unless an upper bit of the letters is set.
fn record_content(a: u8, b: u8, c: u8, d: u8, low: u8, high: u8) -> Content
    ensures { result ≡ record_content a b c d low high }
{
    let stamp = u32::from_le_bytes([a, b, c, d]);
    let letters = u16::from_le_bytes([low, high]);
    if letters < LETTER_LIMIT {
        Ok(Sample { stamp, letters })
    } else {
        Err(Fault {
            cause: Cause::UpperBits,
            height: 0,
        })
    }
}

impl<'a> RecordFeed<'a> {
    // A feed of the entries of `bytes`.
    pub fn new(bytes: &'a [u8]) -> RecordFeed<'a>
        ensures { to_come result ≡ entries_of bytes.now }
    {
        RecordFeed {
            rest: bytes,
            place: 0,
        }
    }
}

// The places of the entries of any bytes count from 0, and no sample has an upper bit. There is an entry for every six bytes, and
// one for what is left.
pub fn entries_stand()
    ensures sound { (bytes : List ℕ) → SoundFrom 0 (entries_of bytes) }
    ensures count { (bytes : List ℕ) → (length bytes ≤ 6 * length (entries_of bytes)) × (6 * length (entries_of bytes) ≤ length bytes + 5) }
{}

impl Feed for RecordFeed<'_> {
    ghost entries = { to_come };

    ghost level = { λ _. 0 };

    ghost low = { λ _. ground_low };

    fn draw(&mut self) -> Option<Entry> {
        let place = self.place;
        match self.rest {
            [] => None,
            [a, b, c, d, low, high, rest @ ..] => {
                let content = record_content(*a, *b, *c, *d, *low, *high);
                self.rest = rest;
                self.place = place + 1;
                Some(Entry { place, content })
            }
            _ => {
                let content = Err(Fault {
                    cause: Cause::ShortRecord,
                    height: 0,
                });
                self.rest = &[];
                self.place = place + 1;
                Some(Entry { place, content })
            }
        }
    }

    fn has_entry(&self) -> bool {
        !self.rest.is_empty()
    }

    fn height(&self) -> u8 {
        0
    }
}

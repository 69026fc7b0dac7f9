// The trait of feeds.
ghost use Rattle.std.specs.Prelude.{◌≡◌, ℕ, ◌≤◌, List};
ghost use Rattle.feed.specs.declared.entry.Entry.{Entry};
ghost use Rattle.feed.specs.Lists.{first, others, some_left};

use crate::entry::Entry;

// A feed means the list of its entries still to come, and a height from 0 to 15, which it tells and keeps.
pub trait Feed {
    // The entries still to come.
    ghost entries: { Self → List Entry };

    // The height.
    ghost level: { Self → ℕ };

    // A height is at most 15.
    ghost low: { (s : Self) → level s ≤ 15 };

    // The first entry, which leaves the others; from an empty list `None`, which changes nothing.
    fn draw(&mut self) -> Option<Entry>
        ensures gives { result ≡ first (entries self.old) }
        ensures leaves { entries self.new ≡ others (entries self.old) }
        ensures keeps { level self.new ≡ level self.old };

    // Whether an entry is left.
    fn has_entry(&self) -> bool
        ensures { result ≡ some_left (entries self.now) };

    // The height.
    fn height(&self) -> u8
        ensures { result ≡ level self.now };
}

// Layers: feeds over another feed, each content of which they turn.
ghost use Rattle.std.specs.Prelude.{◌≡◌, ℕ, List, map};
ghost use Rattle.feed.specs.Entries.{Clear, Content, SoundFrom};
ghost use Rattle.feed.specs.declared.entry.Entry.{Entry};
ghost use Rattle.feed.specs.Heights.{above_low};
ghost use Rattle.feed.specs.Layers.{above, layered};

use crate::entry::{Content, Entry};
use crate::source::Feed;

// The height that no layer passes.
const HIGHEST: u8 = 15;

// What a layer makes of each content of the feed beneath, if the layer's own height is `own`. It gives no sample an upper bit.
pub trait Turn {
    ghost turned: { Self → ℕ → Content → Content };

    fn turn(&self, content: Content, own: u8) -> Content
        ensures { result ≡ turned self.now own content };

    ghost clear: { (t : Self) (own : ℕ) (x : Content) → Clear x → Clear (turned t own x) };
}

// The feed `beneath` with each content turned by `turn`; places stay.
#[derive(Drop)]
pub struct Layer<F, T> {
    pub beneath: F,
    pub turn: T,
}

// The height of a layer over a feed of the height `beneath`.
pub(crate) fn layer_height(beneath: u8) -> u8
    ensures { result ≡ above beneath }
{
    if beneath < HIGHEST {
        beneath + 1
    } else {
        HIGHEST
    }
}

// Whatever a layer makes of contents, it keeps the places of entries, and gives no sample an upper bit.
pub fn layers_stand<T: Turn>()
    ensures { (t : T) (own k : ℕ) (es : List Entry) → SoundFrom k es → SoundFrom k (map (layered (T.turned t own)) es) }
{}

impl<F: Feed, T: Turn> Feed for Layer<F, T> {
    ghost entries = { λ s. map (layered (T.Turn.turned s.turn (above (F.Feed.level s.beneath)))) (F.Feed.entries s.beneath) };

    ghost level = { λ s. above (F.Feed.level s.beneath) };

    ghost low = { λ s. above_low (F.Feed.level s.beneath) };

    fn draw(&mut self) -> Option<Entry> {
        let own = self.height();
        let entry = self.beneath.draw()?;
        Some(Entry {
            content: self.turn.turn(entry.content, own),
            ..entry
        })
    }

    fn has_entry(&self) -> bool {
        self.beneath.has_entry()
    }

    fn height(&self) -> u8 {
        layer_height(self.beneath.height())
    }
}

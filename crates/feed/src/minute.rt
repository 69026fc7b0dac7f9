// A layer that turns stamps in seconds into minutes.
ghost use Rattle.std.specs.Prelude.{◌≡◌, ℕ, ◌≤◌, List, map};
ghost use Rattle.feed.specs.Entries.{SoundFrom};
ghost use Rattle.feed.specs.Turned.{clear_minutes};
ghost use Rattle.feed.specs.Layers.{in_minutes, minute_content, minute_of};

use crate::entry::{Content, Entry, Sample};
use crate::layer::{Layer, Turn};

// How many seconds a minute has.
const MINUTE: u32 = 60;

// Turns the stamp of each sample from seconds into minutes; what is spoiled beneath is passed on.
#[derive(Clone, Copy)]
pub struct ToMinutes;

// The feed beneath, in minutes.
pub type Minute<F> = Layer<F, ToMinutes>;

impl Turn for ToMinutes {
    ghost turned = { λ _ _ x. minute_content x };

    ghost clear = { λ _ _ x. clear_minutes x };

    fn turn(&self, content: Content, _own: u8) -> Content {
        content.map(|sample| Sample {
            stamp: sample.stamp / MINUTE,
            ..sample
        })
    }
}

impl<F> Minute<F> {
    // The feed `beneath`, in minutes.
    pub fn new(beneath: F) -> Minute<F>
        ensures { result.beneath ≡ beneath }
    {
        Layer {
            beneath,
            turn: ToMinutes,
        }
    }
}

// Minutes keep the places of entries, give no sample an upper bit, and never fall where the seconds did not.
pub fn minutes_stand()
    ensures sound { (k : ℕ) (es : List Entry) → SoundFrom k es → SoundFrom k (map in_minutes es) }
    ensures order { (s t : ℕ) → s ≤ t → minute_of s ≤ minute_of t }
{}

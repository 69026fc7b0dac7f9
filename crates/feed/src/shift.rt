// A layer that adds a signed number to each stamp.
ghost use Rattle.std.specs.Prelude.{◌≡◌, ℕ, List, map, ℤ};
ghost use Rattle.feed.specs.Entries.{SoundFrom};
ghost use Rattle.feed.specs.Turned.{clear_shifted};
ghost use Rattle.feed.specs.Layers.{shifted, shifted_content};

use crate::entry::{Cause, Content, Entry, Fault, Sample};
use crate::layer::{Layer, Turn};

// Adds `by` to the stamp of each sample. A sample whose stamp would be out of range is spoiled; what is spoiled beneath is
// passed on.
#[derive(Clone, Copy)]
pub struct ShiftBy {
    pub by: i32,
}

// The feed beneath, shifted.
pub type Shift<F> = Layer<F, ShiftBy>;

impl Turn for ShiftBy {
    ghost turned = { λ t own x. shifted_content t.by own x };

    ghost clear = { λ t own x. clear_shifted t.by own x };

    fn turn(&self, content: Content, own: u8) -> Content {
        let sample = content?;
        match sample.stamp.checked_add_signed(self.by) {
            Some(stamp) => Ok(Sample { stamp, ..sample }),
            None => Err(Fault {
                cause: Cause::StampRange,
                height: own,
            }),
        }
    }
}

impl<F> Shift<F> {
    // The feed `beneath`, shifted by `by`.
    pub fn new(beneath: F, by: i32) -> Shift<F>
        ensures beneath { result.beneath ≡ beneath }
        ensures by { result.turn.by ≡ by }
    {
        Layer {
            beneath,
            turn: ShiftBy { by },
        }
    }
}

// A shift keeps the places of entries, and gives no sample an upper bit.
pub fn shifts_stand()
    ensures { (by : ℤ) (own k : ℕ) (es : List Entry) → SoundFrom k es → SoundFrom k (map (shifted by own) es) }
{}

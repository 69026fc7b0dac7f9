// Layers of minutes, and the highest pile, on examples.
ghost use Rattle.feed.specs.Patterns.{pattern_left};
ghost use Rattle.std.proofs.Common.{lit≤};

use feed::{Cause, Content, Entry, Fault, Feed, Minute, Pattern, PatternRefusal, Sample, Shift};
use std::process::Abort;

// Draws all from `feed`, and holds it to `want`.
fn gives<F: Feed>(rt: &impl Abort, feed: &mut F, want: &[Content]) {
    for (place, content) in want.iter().enumerate() {
        assert!(rt; feed.has_entry());
        let entry = Entry {
            place: place as u64,
            content: *content,
        };
        assert_eq!(rt; feed.draw(), Some(entry));
    }
    assert!(rt; !feed.has_entry());
    assert_eq!(rt; feed.draw(), None);
}

// What the making of a pattern answers, by the number of the refusal.
fn made(pattern: &mut Pattern, first: u32, per: u32, words: &[u16], count: u32) -> Result<(), u8> {
    pattern
        .make(first, per, words, count)
        .map_err(PatternRefusal::number)
}

fn sample(stamp: u32, letters: u16) -> Content {
    Ok(Sample { stamp, letters })
}

fn spoiled(cause: Cause, height: u8) -> Content {
    Err(Fault { cause, height })
}

#[test]
fn minutes(rt: HostRuntime) {
    let mut pattern = Pattern::new();
    assert_eq!(rt; made(&mut pattern, 59, 1, &[1], 2), Ok(()));
    gives(
        &rt,
        &mut Minute::new(pattern),
        &[sample(0, 1), sample(1, 1)],
    );
    assert_eq!(rt; made(&mut pattern, 118, 1, &[1], 3), Ok(()));
    let mut pile = Shift::new(Minute::new(pattern), -2);
    assert_eq!(rt; pile.height(), 2);
    let out = spoiled(Cause::StampRange, 2);
    gives(&rt, &mut pile, &[out, out, sample(0, 1)]);
}

// A pattern that stands thirteen layers high. (A pile of as many types takes the prover too long.)
#[derive(Drop)]
struct Tall {
    beneath: Pattern,
}

impl Feed for Tall {
    ghost entries = { λ s. pattern_left s.beneath };

    ghost level = { λ _. 13 };

    ghost low = { λ _. lit≤ tt };

    fn draw(&mut self) -> Option<Entry> {
        self.beneath.draw()
    }

    fn has_entry(&self) -> bool {
        self.beneath.has_entry()
    }

    fn height(&self) -> u8 {
        13
    }
}

#[test]
fn highest_pile(rt: HostRuntime) {
    let mut pattern = Pattern::new();
    assert_eq!(rt; made(&mut pattern, 0, 1, &[1], 2), Ok(()));
    let fourteen = Shift::new(Tall { beneath: pattern }, 0);
    assert_eq!(rt; fourteen.height(), 14);
    let fifteen = Minute::new(fourteen);
    assert_eq!(rt; fifteen.height(), 15);
    let mut pile = Shift::new(fifteen, -1);
    assert_eq!(rt; pile.height(), 15);
    let out = spoiled(Cause::StampRange, 15);
    gives(&rt, &mut pile, &[out, out]);
}

// Feeds on examples.
use crate::layer::layer_height;
use crate::{
    Cause, Content, Entry, Fault, Feed, Pattern, PatternRefusal, RecordFeed, Sample, Shift,
};
use std::process::Abort;

// Draws all from `feed`, and holds it to `want`.
fn gives<F: Feed>(rt: &impl Abort, feed: &mut F, want: &[Content]) {
    for (place, content) in want.iter().enumerate() {
        assert!(rt; feed.has_entry());
        let entry = Entry {
            place: place as u64,
            content: *content,
        };
        assert_eq!(rt; feed.draw(), Some(entry));
    }
    assert!(rt; !feed.has_entry());
    assert_eq!(rt; feed.draw(), None);
}

// The same of a feed of `bytes`.
fn reads(rt: &impl Abort, bytes: &[u8], want: &[Content]) {
    let mut feed = RecordFeed::new(bytes);
    gives(rt, &mut feed, want);
    assert_eq!(rt; feed.height(), 0);
}

// What the making of a pattern answers, by the number of the refusal.
fn made(pattern: &mut Pattern, first: u32, per: u32, words: &[u16], count: u32) -> Result<(), u8> {
    pattern
        .make(first, per, words, count)
        .map_err(PatternRefusal::number)
}

fn sample(stamp: u32, letters: u16) -> Content {
    Ok(Sample { stamp, letters })
}

fn spoiled(cause: Cause, height: u8) -> Content {
    Err(Fault { cause, height })
}

#[test]
fn records(rt: HostRuntime) {
    let one = sample(0x04030201, 0x0605);
    let short = spoiled(Cause::ShortRecord, 0);
    reads(&rt, &[], &[]);
    reads(&rt, &[1], &[short]);
    reads(&rt, &[1, 2, 3, 4, 5], &[short]);
    reads(&rt, &[1, 2, 3, 4, 5, 6], &[one]);
    reads(&rt, &[1, 2, 3, 4, 5, 6, 7], &[one, short]);
    reads(
        &rt,
        &[1, 2, 3, 4, 5, 6, 255, 255, 255, 255, 255, 15],
        &[one, sample(u32::MAX, 0x0fff)],
    );
}

#[test]
fn upper_bits(rt: HostRuntime) {
    let upper = spoiled(Cause::UpperBits, 0);
    for high in [16, 32, 64, 128, 255] {
        reads(&rt, &[0, 0, 0, 0, 0, high], &[upper]);
    }
    assert_eq!(rt; Cause::UpperBits.number(), 1);
    assert_eq!(rt; Cause::ShortRecord.number(), 2);
    assert_eq!(rt; Cause::StampRange.number(), 3);
}

#[test]
fn letters(rt: HostRuntime) {
    let some = Sample {
        stamp: 0,
        letters: 0b1000_0000_0101,
    };
    assert!(rt; some.letter(0) && some.letter(2) && some.letter(11));
    assert!(rt; !some.letter(1) && !some.letter(12) && !some.letter(16) && !some.letter(255));
    let all = some.spelled();
    assert!(rt; all[0] && !all[1] && all[2] && all[11]);
}

#[test]
fn patterns(rt: HostRuntime) {
    let mut pattern = Pattern::new();
    gives(&rt, &mut pattern, &[]);
    assert_eq!(rt; made(&mut pattern, 5, 2, &[1, 2, 4095], 5), Ok(()));
    let want = [
        sample(5, 1),
        sample(5, 2),
        sample(6, 4095),
        sample(6, 1),
        sample(7, 2),
    ];
    gives(&rt, &mut pattern, &want);
    assert_eq!(rt; pattern.height(), 0);
}

#[test]
fn pattern_refusals(rt: HostRuntime) {
    let mut pattern = Pattern::new();
    assert_eq!(rt; made(&mut pattern, 7, 1, &[3], 1), Ok(()));
    assert_eq!(rt; made(&mut pattern, 0, 0, &[], 9), Err(31));
    assert_eq!(rt; made(&mut pattern, 0, 0, &[0; 9], 9), Err(31));
    assert_eq!(rt; made(&mut pattern, 0, 0, &[0, 4096], 9), Err(32));
    assert_eq!(rt; made(&mut pattern, 0, 0, &[0; 8], 9), Err(33));
    assert_eq!(rt; made(&mut pattern, u32::MAX, 1, &[0], 2), Err(34));
    gives(&rt, &mut pattern, &[sample(7, 3)]);
    assert_eq!(rt; made(&mut pattern, u32::MAX, 1, &[0], 1), Ok(()));
    gives(&rt, &mut pattern, &[sample(u32::MAX, 0)]);
}

#[test]
fn shifts(rt: HostRuntime) {
    let mut pattern = Pattern::new();
    let out = spoiled(Cause::StampRange, 1);
    assert_eq!(rt; made(&mut pattern, 9, 1, &[1], 2), Ok(()));
    gives(&rt, &mut Shift::new(pattern, -10), &[out, sample(0, 1)]);
    assert_eq!(rt; made(&mut pattern, u32::MAX - 3, 1, &[1], 2), Ok(()));
    gives(
        &rt,
        &mut Shift::new(pattern, 3),
        &[sample(u32::MAX, 1), out],
    );
}

#[test]
fn piles(rt: HostRuntime) {
    let mut pattern = Pattern::new();
    assert_eq!(rt; made(&mut pattern, 0, 1, &[1], 3), Ok(()));
    let mut pile = Shift::new(Shift::new(pattern, -1), -1);
    assert_eq!(rt; pile.height(), 2);
    let want = [
        spoiled(Cause::StampRange, 1),
        spoiled(Cause::StampRange, 2),
        sample(0, 1),
    ];
    gives(&rt, &mut pile, &want);
    assert_eq!(rt; layer_height(15), 15);
}

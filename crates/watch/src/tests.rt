// The watch on examples.
use crate::{Answer, Call, MOST_TREATED, Watch};
use feed::{Feed, RecordFeed};
use logic::{DrawRefusal, Line, Point};
use std::process::Abort;

// True until, within a minute, letter 0.
const WITHIN_A_MINUTE: [u8; 15] = [0, 0, 0, 0, 0, 1, 0, 0, 0, 0, 8, 0, 1, 0, 1];

// The number of lines of each draw, or the number of a refusal.
fn plays(
    rt: &impl Abort,
    watch: &mut Watch,
    card: &[u8],
    want: &[Result<usize, u8>],
    tray: &mut [Line],
) {
    let mut feed = RecordFeed::new(card);
    for answer in want {
        let drawn = watch.draw(&mut feed, tray).map_err(DrawRefusal::number);
        assert_eq!(rt; drawn, *answer);
    }
}

#[test]
fn within_a_minute(rt: HostRuntime) {
    let mut watch = Watch::new();
    assert!(rt; watch.fit(&WITHIN_A_MINUTE, 128).is_ok());
    let card = [
        10, 0, 0, 0, 0, 0, 10, 0, 0, 0, 0, 0, 11, 0, 0, 0, 0, 0, 11, 0, 0, 0, 1, 0, 9, 0, 0, 0, 0,
        0, 13, 0, 0, 0, 0, 0, 14,
    ];
    let mut tray = [Line::True(Point::default()); MOST_TREATED];
    plays(
        &rt,
        &mut watch,
        &card,
        &[Ok(0), Ok(1), Ok(0), Ok(3), Err(25), Ok(0), Err(24), Err(23)],
        &mut tray,
    );
    let held = Point {
        stamp: 13,
        offset: 0,
    };
    assert_eq!(rt; watch.held_point(0), Some(held));
    assert_eq!(rt; watch.held_point(1), None);
    assert_eq!(rt; watch.drawn(), 7);
    assert_eq!(rt; watch.accepted(), 5);
    assert_eq!(rt; watch.turned_away(), 2);
    assert_eq!(rt; watch.held(), 1);
}

#[test]
fn one_slot_and_short_trays(rt: HostRuntime) {
    let mut watch = Watch::new();
    assert!(rt; watch.fit(&WITHIN_A_MINUTE, 1).is_ok());
    let card = [10, 0, 0, 0, 0, 0, 11, 0, 0, 0, 0, 0, 12, 0, 0, 0, 1, 0];
    let mut tray = [Line::True(Point::default()); 2];
    plays(&rt, &mut watch, &card, &[Ok(0), Err(27)], &mut tray);
    let mut short = [Line::True(Point::default()); 1];
    plays(&rt, &mut watch, &card, &[Err(22)], &mut short);
    plays(&rt, &mut watch, &card[12..], &[Ok(2), Err(23)], &mut tray);
    assert!(rt; matches!(tray[0], Line::False(_)) && matches!(tray[1], Line::True(_)));
}

#[test]
fn a_run_of_calls(rt: HostRuntime) {
    let mut watch = Watch::new();
    let card = [10, 0, 0, 0, 0, 0, 10, 0, 0, 0, 0, 0, 10, 0, 0, 0, 1, 0];
    let mut feed = RecordFeed::new(&card);
    let calls = [
        Call::Draw(129),
        Call::Draw(500),
        Call::Held,
        Call::HeldPoint(0),
        Call::HeldPoint(1),
        Call::Draw(0),
        Call::Draw(1),
        Call::Accepted,
        Call::Drawn,
    ];
    let mut answers = [Answer::Count(7); 8];
    let made = watch.run(&WITHIN_A_MINUTE, 1, &mut feed, &calls, &mut answers);
    assert_eq!(rt; made, Ok(8));
    assert_eq!(rt; answers[0], Answer::Draw(Ok(0)));
    assert_eq!(rt; answers[1], Answer::Draw(Ok(1)));
    assert_eq!(rt; answers[2], Answer::Count(1));
    assert!(rt; matches!(answers[3], Answer::Point(Some(_))));
    assert_eq!(rt; answers[4], Answer::Point(None));
    assert!(rt; matches!(answers[5], Answer::Draw(Err(_))));
    assert!(rt; matches!(answers[6], Answer::Draw(Err(_))));
    assert_eq!(rt; answers[7], Answer::Count(2));
}

#[test]
fn a_refused_run(rt: HostRuntime) {
    let mut watch = Watch::new();
    let mut feed = RecordFeed::new(&[10, 0, 0, 0, 0, 0]);
    let mut answers = [Answer::Count(7); 1];
    let made = watch.run(
        &WITHIN_A_MINUTE,
        129,
        &mut feed,
        &[Call::Drawn],
        &mut answers,
    );
    assert!(rt; made.is_err());
    assert_eq!(rt; answers[0], Answer::Count(7));
}

// Lines on examples.
use crate::{Counts, Report, TRAY, write_report};
use arrayvec::ArrayString;
use feed::{Cause, Fault};
use logic::{Line, Point};
use rule::RuleRefusal;
use std::fmt::Write;
use std::process::Abort;

// Writes a report, and holds the tray to `want` and the bytes that it had.
fn writes(rt: &impl Abort, report: Report, want: &[u8]) {
    let mut tray = [7; TRAY];
    let len = write_report(report, &mut tray);
    assert_eq!(rt; &tray[..len], want);
    assert!(rt; tray[len..].iter().all(|b| *b == 7));
}

fn point(stamp: u32, offset: u16) -> Point {
    Point { stamp, offset }
}

fn joined(later: Point, earlier: Point) -> Report {
    Report::Line(Line::Joined { later, earlier })
}

fn refused(place: u64, number: u8) -> Report {
    Report::Refused { place, number }
}

fn spoiled(place: u64, number: u8, cause: Cause, height: u8) -> Report {
    let fault = Fault { cause, height };
    Report::Spoiled {
        place,
        number,
        fault,
    }
}

#[test]
fn verdicts(rt: HostRuntime) {
    let first = point(10, 0);
    let last = point(u32::MAX, u16::MAX);
    writes(&rt, Report::Line(Line::True(first)), b"10:0 true\n");
    writes(&rt, Report::Line(Line::False(first)), b"10:0 false\n");
    writes(&rt, joined(point(10, 1), first), b"10:1 = 10:0\n");
    writes(
        &rt,
        joined(last, last),
        b"4294967295:65535 = 4294967295:65535\n",
    );
    writes(&rt, Report::Held(point(13, 0)), b"13:0 held\n");
}

#[test]
fn refusals(rt: HostRuntime) {
    writes(&rt, refused(4, 25), b"entry 4 refused 25\n");
    writes(
        &rt,
        spoiled(2, 24, Cause::UpperBits, 0),
        b"entry 2 refused 24 cause 1 layer 0\n",
    );
    writes(
        &rt,
        spoiled(u64::MAX, 255, Cause::ShortRecord, 255),
        b"entry 18446744073709551615 refused 255 cause 2 layer 255\n",
    );
    writes(&rt, Report::RuleRefused { number: 3 }, b"rule refused 3\n");
    assert_eq!(rt;
        Report::from(RuleRefusal::Argument),
        Report::RuleRefused { number: 3 }
    );
    writes(&rt, Report::LogTooLong, b"log too long\n");
}

#[test]
fn display(rt: HostRuntime) {
    let mut shown = ArrayString::<TRAY>::new();
    let report = refused(4, 25);
    assert!(rt; write!(shown, "{report}, {report:>20}").is_ok());
    assert_eq!(rt; shown.as_str(), "entry 4 refused 25,   entry 4 refused 25");
    assert!(rt; report != refused(4, 24));
}

#[test]
fn counts(rt: HostRuntime) {
    let some = Counts {
        drawn: 6,
        accepted: 5,
        turned_away: 1,
        held: 1,
    };
    let most = Counts {
        drawn: u32::MAX,
        accepted: u32::MAX,
        turned_away: u32::MAX,
        held: u32::MAX,
    };
    writes(
        &rt,
        Report::Counts(some),
        b"drawn 6 accepted 5 turned-away 1 held 1\n",
    );
    writes(
        &rt,
        Report::Counts(most),
        b"drawn 4294967295 accepted 4294967295 turned-away 4294967295 held 4294967295\n",
    );
}

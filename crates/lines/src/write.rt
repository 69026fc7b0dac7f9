// The lines of reports.
#![tactic(auto, using(crate::proofs::Decimals::printed))]

ghost use Rattle.std.specs.Prelude.{◌≡◌, ◌≤◌, ◌++◌, length, Some};
ghost use Rattle.std.specs.Fmt.{styled_text};
ghost use Rattle.arrayvec.specs.ArrayString.{array_string_len};
ghost use Rattle.lines.specs.Decimals.{DecimalsStand};
ghost use Rattle.lines.specs.Lines.{point_text, line_text, refused_text, counts_text};
ghost use Rattle.lines.specs.Reports.{report_text, line_bytes};
ghost use Rattle.feed.specs.Lists.{onto};

use crate::report::{Counts, Report};
use crate::text::{TRAY, Text, put_labelled, put_number};
use logic::{Line, Point};
use std::fmt;

// The text of a point.
fn point_text(point: Point) -> Text
    ensures text { result.bytes ≡ point_text point }
    ensures len { array_string_len result ≤ 16 }
{
    let mut text = Text::new();
    put_number(&mut text, point.stamp);
    put_labelled(&mut text, ":", point.offset);
    text
}

// The text of a point and what is said of it.
fn said_text(point: Point, words: &str) -> Text
    requires { length words.now ≤ 6 }
    ensures text { result.bytes ≡ point_text point ++ words.now }
    ensures len { array_string_len result ≤ 79 }
{
    let mut text = point_text(point);
    text.push_str(words);
    text
}

// The text of a line of the verdict.
fn line_text(line: Line) -> Text
    ensures text { result.bytes ≡ line_text line }
    ensures len { array_string_len result ≤ 79 }
{
    match line {
        Line::True(point) => said_text(point, " true"),
        Line::False(point) => said_text(point, " false"),
        Line::Joined { later, earlier } => {
            let mut text = point_text(later);
            text.push_str(" = ");
            text.push_str(&point_text(earlier));
            text
        }
    }
}

// The text of an entry that is refused.
fn refused_text(place: u64, number: u8) -> Text
    ensures text { result.bytes ≡ refused_text place number }
    ensures len { array_string_len result ≤ 38 }
{
    let mut text = Text::new();
    put_labelled(&mut text, "entry ", place);
    put_labelled(&mut text, " refused ", number);
    text
}

// The text of what was counted.
fn counts_text(counts: Counts) -> Text
    ensures text { result.bytes ≡ counts_text counts }
    ensures len { array_string_len result ≤ 79 }
{
    let mut text = Text::new();
    put_labelled(&mut text, "drawn ", counts.drawn);
    put_labelled(&mut text, " accepted ", counts.accepted);
    put_labelled(&mut text, " turned-away ", counts.turned_away);
    put_labelled(&mut text, " held ", counts.held);
    text
}

// The text of a report.
fn report_text(report: Report) -> Text
    ensures text { result.bytes ≡ report_text report }
    ensures len { array_string_len result ≤ 79 }
{
    match report {
        Report::Line(line) => line_text(line),
        Report::Held(point) => said_text(point, " held"),
        Report::Refused { place, number } => refused_text(place, number),
        Report::Spoiled {
            place,
            number,
            fault,
        } => {
            let mut text = refused_text(place, number);
            put_labelled(&mut text, " cause ", fault.cause.number());
            put_labelled(&mut text, " layer ", fault.height);
            text
        }
        Report::Counts(counts) => counts_text(counts),
        Report::RuleRefused { number } => {
            let mut text = Text::new();
            put_labelled(&mut text, "rule refused ", number);
            text
        }
        Report::LogTooLong => {
            let mut text = Text::new();
            text.push_str("log too long");
            text
        }
    }
}

// A report prints as its text.
impl fmt::Display for Report {
    ghost output = { λ r. Some (report_text r) };

    ghost styled_output = { λ r s. Some (styled_text s (report_text r)) };

    fn fmt<W: fmt::Write>(&self, f: &mut fmt::Formatter<W>) -> fmt::Result {
        f.pad(&report_text(*self))
    }
}

// Writes the line of a report, its text and a byte 10, to the front of a tray, and answers its length.
pub fn write_report(report: Report, tray: &mut [u8; TRAY]) -> usize
    ensures answer { result ≡ length (line_bytes report) }
    ensures tray { tray.new ≡ onto (line_bytes report) tray.old }
    ensures fits { result ≤ 80 }
{
    let mut line = report_text(report);
    line.push_str("\n");
    let len = line.len();
    tray[..len].copy_from_slice(line.as_bytes());
    len
}

// Decimals tell their number.
pub fn decimals_stand()
    ensures { DecimalsStand }
{}

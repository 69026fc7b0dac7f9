// Judges a card by a rule: reads the file rule.bin and the card on standard input, and prints a line for each outcome.
#![tactic(auto)]

ghost use Rattle.std.specs.Prelude.{OnOk};
ghost use Rattle.std.specs.Io.KnownBytes.{Appends};
ghost use Rattle.lines.specs.Reports.{line_bytes};

mod session;

use feed::{Feed, RecordFeed};
use lines::{Report, TRAY, write_report};
use rule::{MOST_RECORDS, RECORD_BYTES};
use session::{MOST_LOG_BYTES, Session};
use std::alloc::Global;
use std::fs::File;
use std::io;
use std::io::{ErrorKind, Read, Write};

// A rule has no more bytes, so that one more is enough to refuse it.
const MOST_RULE_BYTES: usize = MOST_RECORDS * RECORD_BYTES;

// The first bytes of a reader, at most `most` of them.
fn read_up_to<R: Read + Drop>(rt: &HostRuntime, reader: R, most: u64) -> io::Result<Vec<u8>> {
    let mut bytes = Vec::new(rt.alloc());
    reader.take(most).read_to_end(&mut bytes)?;
    Ok(bytes)
}

// The bytes of the file rule.bin, as far as they count; a missing file is an empty one.
fn read_rule(rt: &HostRuntime) -> io::Result<Vec<u8>> {
    match File::open(rt, "rule.bin") {
        Ok(file) => read_up_to(rt, file, MOST_RULE_BYTES as u64 + 1),
        Err(e) if e.kind() == ErrorKind::NotFound => Ok(Vec::new(rt.alloc())),
        Err(e) => Err(e),
    }
}

// Puts the line of a report, its text and a byte 10, behind what a writer holds.
fn put_report<W: Write>(out: &mut W, report: Report) -> io::Result<()>
    ensures { OnOk result (Appends (W.Write.contents out.old) (W.Write.contents out.new) (line_bytes report)) }
{
    let mut tray = [0; TRAY];
    let len = write_report(report, &mut tray);
    out.write_all(&tray[..len])
}

// Prints the line of a report.
fn print_report(rt: &HostRuntime, report: Report) -> io::Result<()> {
    put_report(&mut rt.stdout(), report)
}

// Judges each entry, and prints the counts.
fn judge_all(rt: &HostRuntime, session: &mut Session, log: &[u8]) -> io::Result<()> {
    let mut feed = RecordFeed::new(log);
    while let Some(entry) = feed.draw() {
        print_report(rt, session.judge(entry))?;
    }
    print_report(rt, session.counts())
}

fn main(rt: HostRuntime) -> io::Result<()> {
    let rule = read_rule(&rt)?;
    let log = read_up_to(&rt, rt.stdin(), MOST_LOG_BYTES as u64 + 1)?;
    match Session::begin(&rule, log.len()) {
        Ok(mut session) => judge_all(&rt, &mut session, &log),
        Err(report) => print_report(&rt, report),
    }
}

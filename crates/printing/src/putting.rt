// Putting reports behind a text: one report, the lines of a draw, and a draw with what it brings.
ghost use Rattle.std.specs.Prelude.{◌≡◌, ◌++◌, map, length, IfOk, MatchResult, OnOk};
ghost use Rattle.feed.specs.Lists.{onto};
ghost use Rattle.lines.specs.Reports.{line_bytes};
ghost use Rattle.lines.specs.declared.report.Report.TheVariants as report;
ghost use Rattle.logic.specs.Draws.{draw_answer, draw_lines, draw_rest, draw_state};
ghost use Rattle.printing.specs.Reports.{draw_reports, has_drawn, printed, refusal_report};
ghost use Rattle.watch.specs.States.{state};

use feed::Feed;
use lines::{Report, TRAY, write_report};
use logic::{DrawRefusal, Line};
use std::alloc::AllocError;
use watch::Watch;

// Puts the line of a report behind a text. Where there is no memory for it the text stays.
pub fn put_report(out: &mut Vec<u8>, report: Report) -> Result<(), AllocError>
    ensures { MatchResult result (λ _. out.new.items ≡ out.old.items ++ line_bytes report) (λ _. out.new.items ≡ out.old.items) }
{
    let mut tray = [0; TRAY];
    let len = write_report(report, &mut tray);
    out.extend_from_slice(&tray[0..len])
}

// Puts some lines behind a text.
fn put_lines(out: &mut Vec<u8>, lines: &[Line]) -> Result<(), AllocError>
    ensures { OnOk result (out.new.items ≡ out.old.items ++ printed (map report.Line lines.now)) }
{
    for line in lines {
        put_report(out, Report::Line(*line))?;
    }
    Ok(())
}

// The report of an entry that was drawn and turned away, if one was.
fn refusal_report(refusal: DrawRefusal) -> Option<Report>
    ensures { result ≡ refusal_report refusal }
{
    let number = refusal.number();
    match refusal {
        DrawRefusal::Counted | DrawRefusal::Tray | DrawRefusal::Ended => None,
        DrawRefusal::Spoiled { place, fault } => Some(Report::Spoiled {
            place,
            number,
            fault,
        }),
        DrawRefusal::Stamp { place }
        | DrawRefusal::Crowded { place }
        | DrawRefusal::Slots { place } => Some(Report::Refused { place, number }),
    }
}

// Makes a draw, puts its lines or the entry that it turned away behind a text, and answers whether an entry was drawn. Watch,
// feed and tray are as the draw leaves them, also where there is no memory for the text.
pub fn put_draw<F: Feed>(
    out: &mut Vec<u8>,
    watch: &mut Watch,
    feed: &mut F,
    tray: &mut [Line],
) -> Result<bool, AllocError>
    ensures answer { IfOk result (λ b. b ≡ has_drawn (draw_answer (state watch.old) (F.Feed.entries feed.old) (length tray.old))) }
    ensures text { OnOk result (out.new.items ≡ out.old.items ++ printed (draw_reports (draw_answer (state watch.old) (F.Feed.entries feed.old) (length tray.old)) (draw_lines (state watch.old) (F.Feed.entries feed.old) (length tray.old)))) }
    ensures state { state watch.new ≡ draw_state (state watch.old) (F.Feed.entries feed.old) (length tray.old) }
    ensures entries { F.Feed.entries feed.new ≡ draw_rest (state watch.old) (F.Feed.entries feed.old) (length tray.old) }
    ensures height { F.Feed.level feed.new ≡ F.Feed.level feed.old }
    ensures tray { tray.new ≡ onto (draw_lines (state watch.old) (F.Feed.entries feed.old) (length tray.old)) tray.old }
{
    match watch.draw(feed, tray) {
        Ok(n) => {
            put_lines(out, &tray[0..n])?;
            Ok(true)
        }
        Err(refusal) => {
            let Some(report) = refusal_report(refusal) else {
                return Ok(false);
            };
            put_report(out, report)?;
            Ok(true)
        }
    }
}

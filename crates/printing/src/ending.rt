// What is printed of a watch itself: its held points and its counts.
ghost use Rattle.std.specs.Prelude.{◌≡◌, ◌++◌, OnOk};
ghost use Rattle.lines.specs.Reports.{line_bytes};
ghost use Rattle.printing.specs.Reports.{counts_report, held_reports, printed};
ghost use Rattle.watch.specs.States.{state};

use crate::putting::put_report;
use lines::{Counts, Report};
use std::alloc::AllocError;
use watch::Watch;

// Puts the lines of the held points behind a text, earliest first.
pub fn put_held(out: &mut Vec<u8>, watch: &Watch) -> Result<(), AllocError>
    ensures { OnOk result (out.new.items ≡ out.old.items ++ printed (held_reports (state watch.now).held)) }
{
    for k in 0..watch.held() {
        if let Some(point) = watch.held_point(k) {
            put_report(out, Report::Held(point))?;
        }
    }
    Ok(())
}

// What a watch has counted.
fn counts_of(watch: &Watch) -> Report
    ensures { result ≡ counts_report (state watch.now) }
{
    Report::Counts(Counts {
        drawn: watch.drawn(),
        accepted: watch.accepted(),
        turned_away: watch.turned_away(),
        held: watch.held() as u32,
    })
}

// Puts the line of the counts behind a text.
pub fn put_counts(out: &mut Vec<u8>, watch: &Watch) -> Result<(), AllocError>
    ensures { OnOk result (out.new.items ≡ out.old.items ++ line_bytes (counts_report (state watch.now))) }
{
    put_report(out, counts_of(watch))
}

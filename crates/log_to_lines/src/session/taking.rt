// A card that is being judged: how it begins, what each entry brings, and the counts.
ghost use Rattle.std.specs.Prelude.{◌≡◌, if◌then◌else◌};
ghost use Rattle.rule.specs.Reading.{asked, instant_questions, read_table, records};
ghost use Rattle.log_to_lines.specs.Sessions.{begins, counted, entry_report, is_verdict, judged, offset_after, one_more, sample_report, told};

use crate::session::{SHELF, Session};
use feed::{Entry, Sample};
use instant::InstantWatch;
use lines::{Counts, Report};
use logic::{DrawRefusal, Line, Point};

// A card has no more bytes: ten thousand records of six.
pub const MOST_LOG_BYTES: usize = 60_000;

// Whether an entry was accepted, by the report of it.
fn is_verdict(report: Report) -> bool
    ensures { result ≡ is_verdict report }
{
    matches!(report, Report::Line(_))
}

impl Session {
    // Fits a watch with the rule, for a card of so many bytes; else tells why not.
    pub fn begin(rule: &[u8], log: usize) -> Result<Session, Report>
        ensures { told result ≡ begins (asked instant_questions (read_table rule.now)) log }
    {
        let mut watch = InstantWatch::new();
        watch.fit(rule)?;
        if log > MOST_LOG_BYTES {
            return Err(Report::LogTooLong);
        }
        Ok(Session {
            watch,
            shelf: [false; SHELF],
            offset: 0,
            accepted: 0,
            turned_away: 0,
        })
    }

    // Takes the next entry of the card, and tells what it brings: a verdict, or why it is turned away.
    pub fn judge(&mut self, entry: Entry) -> Report
        ensures report { result ≡ entry_report (records self.old.watch.rule) self.old.watch.newest self.old.shelf self.old.offset entry }
        ensures rule { self.new.watch.rule ≡ self.old.watch.rule }
        ensures accepted { self.new.accepted ≡ (if is_verdict result then one_more self.old.accepted else self.old.accepted) }
        ensures turned { self.new.turned_away ≡ (if is_verdict result then self.old.turned_away else one_more self.old.turned_away) }
    {
        let report = self.judge_content(entry);
        self.count(is_verdict(report));
        report
    }

    // What an entry brings, before it is counted.
    fn judge_content(&mut self, entry: Entry) -> Report
        ensures report { result ≡ entry_report (records self.old.watch.rule) self.old.watch.newest self.old.shelf self.old.offset entry }
        ensures rule { self.new.watch.rule ≡ self.old.watch.rule }
        ensures accepted { self.new.accepted ≡ self.old.accepted }
        ensures turned { self.new.turned_away ≡ self.old.turned_away }
    {
        let place = entry.place;
        match entry.content {
            Err(fault) => Report::Spoiled {
                place,
                number: DrawRefusal::Spoiled { place, fault }.number(),
                fault,
            },
            Ok(sample) => self.judge_sample(place, sample),
        }
    }

    // Counts one more entry.
    fn count(&mut self, accepted: bool)
        ensures watch { self.new.watch ≡ self.old.watch }
        ensures accepted { self.new.accepted ≡ (if accepted then one_more self.old.accepted else self.old.accepted) }
        ensures turned { self.new.turned_away ≡ (if accepted then self.old.turned_away else one_more self.old.turned_away) }
    {
        if accepted {
            self.accepted = self.accepted.saturating_add(1);
        } else {
            self.turned_away = self.turned_away.saturating_add(1);
        }
    }

    // The offset of a new point at a stamp; none where that stamp has no room for one more.
    fn next_offset(&self, stamp: u32) -> Option<u16>
        ensures { result ≡ offset_after self.now.watch.newest self.now.offset stamp }
    {
        match self.watch.newest() {
            Some(newest) if newest == stamp => self.offset.checked_add(1),
            _ => Some(0),
        }
    }

    // Judges a sample by the watch, and remembers its offset where it is accepted.
    fn judge_sample(&mut self, place: u64, sample: Sample) -> Report
        ensures report { result ≡ sample_report place sample.stamp (offset_after self.old.watch.newest self.old.offset sample.stamp) (judged (records self.old.watch.rule) self.old.watch.newest self.old.shelf sample) }
        ensures rule { self.new.watch.rule ≡ self.old.watch.rule }
        ensures accepted { self.new.accepted ≡ self.old.accepted }
        ensures turned { self.new.turned_away ≡ self.old.turned_away }
    {
        let Some(offset) = self.next_offset(sample.stamp) else {
            return Report::Refused {
                place,
                number: DrawRefusal::Crowded { place }.number(),
            };
        };
        let point = Point {
            stamp: sample.stamp,
            offset,
        };
        match self.watch.judge(sample, &mut self.shelf) {
            Ok(value) => {
                self.offset = offset;
                Report::Line(if value {
                    Line::True(point)
                } else {
                    Line::False(point)
                })
            }
            Err(refusal) => Report::Refused {
                place,
                number: refusal.number(),
            },
        }
    }

    // The line of the counts; an instant watch holds no point.
    pub fn counts(&self) -> Report
        ensures { result ≡ counted self.now.accepted self.now.turned_away }
    {
        Report::Counts(Counts {
            drawn: self.accepted.saturating_add(self.turned_away),
            accepted: self.accepted,
            turned_away: self.turned_away,
            held: 0,
        })
    }
}

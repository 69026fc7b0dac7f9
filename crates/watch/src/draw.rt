// A draw: one entry is taken from a feed and judged.
ghost use Rattle.std.specs.Prelude.{◌≡◌, List, length};
ghost use Rattle.feed.specs.Lists.{onto};
ghost use Rattle.feed.specs.declared.entry.Entry.{Entry};
ghost use Rattle.rule.specs.declared.record.Record.{Record};
ghost use Rattle.logic.specs.declared.verdict.Line.{Line};
ghost use Rattle.rule.specs.Reading.{records};
ghost use Rattle.logic.specs.Draws.{draw_answer, draw_lines, draw_rest, draw_state};
ghost use Rattle.logic.specs.Histories.{KeptPromise, Logged, Reached, lines_after, log_after};
ghost use Rattle.watch.specs.States.{state};

use crate::watch::Watch;
use feed::Feed;
use logic::{DrawRefusal, Line};

impl Watch {
    // Takes one entry from a feed. The held points, carried, and then the new point are each treated once: settled, joined or
    // held. The lines go to the front of the tray, and their number is the answer; a refusal leaves the tray and the points.
    // Whatever draws led here from a newly fitted watch, the promise is kept after this one too.
    pub fn draw<F: Feed>(&mut self, feed: &mut F, tray: &mut [Line]) -> Result<usize, DrawRefusal>
        ensures answer { result ≡ draw_answer (state self.old) (F.Feed.entries feed.old) (length tray.old) }
        ensures state { state self.new ≡ draw_state (state self.old) (F.Feed.entries feed.old) (length tray.old) }
        ensures entries { F.Feed.entries feed.new ≡ draw_rest (state self.old) (F.Feed.entries feed.old) (length tray.old) }
        ensures height { F.Feed.level feed.new ≡ F.Feed.level feed.old }
        ensures reached { (start : List Entry) (log : List Logged) (lines : List Line) → Reached (records self.old.rule) self.old.slots start (state self.old) (F.Feed.entries feed.old) log lines → Reached (records self.old.rule) self.old.slots start (state self.new) (F.Feed.entries feed.new) (log_after (state self.old) (F.Feed.entries feed.old) (length tray.old) log) (lines_after (state self.old) (F.Feed.entries feed.old) (length tray.old) lines) }
        ensures promise { (start : List Entry) (log : List Logged) (lines : List Line) → Reached (records self.old.rule) self.old.slots start (state self.old) (F.Feed.entries feed.old) log lines → KeptPromise (records self.old.rule) self.old.slots start (state self.new) (F.Feed.entries feed.new) (log_after (state self.old) (F.Feed.entries feed.old) (length tray.old) log) (lines_after (state self.old) (F.Feed.entries feed.old) (length tray.old) lines) }
        ensures tray { tray.new ≡ onto (draw_lines (state self.old) (F.Feed.entries feed.old) (length tray.old)) tray.old }
    {
        self.draw_one(feed, tray)
    }

    // The same, by its defined result alone.
    fn draw_one<F: Feed>(&mut self, feed: &mut F, tray: &mut [Line]) -> Result<usize, DrawRefusal>
        ensures answer { result ≡ draw_answer (state self.old) (F.Feed.entries feed.old) (length tray.old) }
        ensures state { state self.new ≡ draw_state (state self.old) (F.Feed.entries feed.old) (length tray.old) }
        ensures entries { F.Feed.entries feed.new ≡ draw_rest (state self.old) (F.Feed.entries feed.old) (length tray.old) }
        ensures height { F.Feed.level feed.new ≡ F.Feed.level feed.old }
        ensures tray { tray.new ≡ onto (draw_lines (state self.old) (F.Feed.entries feed.old) (length tray.old)) tray.old }
    {
        if self.drawn == u32::MAX {
            return Err(DrawRefusal::Counted);
        }
        if tray.len() <= self.count {
            return Err(DrawRefusal::Tray);
        }
        if !feed.has_entry() {
            return Err(DrawRefusal::Ended);
        }
        let entry = feed.draw().ok_or(DrawRefusal::Ended)?;
        self.take(entry, tray)
    }
}

// What a draw does with the entry that it has drawn: it is turned away, or accepted with all that follows.
ghost use Rattle.std.specs.Prelude.{◌≡◌, ◌-◌, ◌^◌, ◌<◌, List, length, MatchResult};
ghost use Rattle.feed.specs.declared.entry.Entry.{Entry};
ghost use Rattle.feed.specs.Lists.{onto};
ghost use Rattle.logic.specs.Draws.{drawn_content};
ghost use Rattle.watch.specs.States.{counted, state};

use crate::naming::{is_late, next_point};
use crate::watch::Watch;
use feed::Entry;
use logic::{DrawRefusal, Line};

impl Watch {
    // Asks the questions of an entry that was drawn, and accepts its sample as a new point. Nothing is counted yet.
    fn judge(&mut self, entry: Entry, tray: &mut [Line]) -> Result<usize, DrawRefusal>
        requires { self.old.count < length tray.old }
        ensures answer { (es : List Entry) → result ≡ (drawn_content (state self.old) es entry.place entry.content).answer }
        ensures state { (es : List Entry) → MatchResult result (λ lines. counted (state self.new) ≡ (drawn_content (state self.old) es entry.place entry.content).state) (λ refusal. state self.new ≡ state self.old) }
        ensures tray { (es : List Entry) → tray.new ≡ onto (drawn_content (state self.old) es entry.place entry.content).lines tray.old }
        ensures drawn { self.new.drawn ≡ self.old.drawn }
    {
        let place = entry.place;
        let sample = entry
            .content
            .map_err(|fault| DrawRefusal::Spoiled { place, fault })?;
        if is_late(self.newest, sample.stamp) {
            return Err(DrawRefusal::Stamp { place });
        }
        let point = next_point(self.newest, sample.stamp).ok_or(DrawRefusal::Crowded { place })?;
        self.accept(sample, point, tray)
            .ok_or(DrawRefusal::Slots { place })
    }

    // Takes an entry that was drawn: it is accepted or turned away, and counted.
    pub(crate) fn take(&mut self, entry: Entry, tray: &mut [Line]) -> Result<usize, DrawRefusal>
        requires drawn { self.old.drawn < 2 ^ 32 - 1 }
        requires tray { self.old.count < length tray.old }
        ensures answer { (es : List Entry) → result ≡ (drawn_content (state self.old) es entry.place entry.content).answer }
        ensures state { (es : List Entry) → state self.new ≡ (drawn_content (state self.old) es entry.place entry.content).state }
        ensures tray { (es : List Entry) → tray.new ≡ onto (drawn_content (state self.old) es entry.place entry.content).lines tray.old }
    {
        let answer = self.judge(entry, tray);
        self.drawn += 1;
        match answer {
            Ok(_) => self.accepted += 1,
            Err(_) => self.turned_away += 1,
        }
        answer
    }
}

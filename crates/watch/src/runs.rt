// Any list of permitted calls on a newly fitted watch.
ghost use Rattle.std.specs.Prelude.{◌≡◌, ℕ, min, List, length, take, Ok};
ghost use Rattle.feed.specs.Lists.{onto};
ghost use Rattle.rule.specs.Reading.{asked, read_table, watch_questions};
ghost use Rattle.rule.specs.declared.record.Record.{Record};
ghost use Rattle.watch.specs.Calls.{Kept, Led, answer_to, drawing_of, entries_after, newly_fitted, played, run_answer, stage_at, stages, state_after};
ghost use Rattle.watch.specs.States.{state};

use crate::call::{Answer, Call};
use crate::watch::{MOST_TREATED, Watch};
use feed::Feed;
use logic::{Line, Point};
use rule::RuleRefusal;

impl Watch {
    // One call, on the watch and the feed as they are; the lines of a draw go to a tray of its own.
    fn answer<F: Feed>(&mut self, feed: &mut F, call: Call) -> Answer
        ensures answer { result ≡ answer_to (state self.old) (F.Feed.entries feed.old) call }
        ensures state { state self.new ≡ state_after (state self.old) (F.Feed.entries feed.old) (drawing_of call) }
        ensures entries { F.Feed.entries feed.new ≡ entries_after (state self.old) (F.Feed.entries feed.old) (drawing_of call) }
    {
        match call {
            Call::Draw(size) => {
                let mut tray = [Line::True(Point::default()); MOST_TREATED];
                let n = size.min(MOST_TREATED);
                Answer::Draw(self.draw(feed, &mut tray[..n]))
            }
            Call::Drawn => Answer::Count(self.drawn() as usize),
            Call::Accepted => Answer::Count(self.accepted() as usize),
            Call::TurnedAway => Answer::Count(self.turned_away() as usize),
            Call::Held => Answer::Count(self.held()),
            Call::HeldPoint(k) => Answer::Point(self.held_point(k)),
        }
    }

    // Makes the calls on a newly fitted watch, as many as there are places for their answers; what is left of the answers
    // stays. A refused fitting alters nothing. After each call draws alone have led from a fresh fitting to what there is, and
    // the promise over every history is kept.
    pub fn run<F: Feed>(
        &mut self,
        bytes: &[u8],
        slots: usize,
        feed: &mut F,
        calls: &[Call],
        answers: &mut [Answer],
    ) -> Result<usize, RuleRefusal>
        ensures answer { result ≡ run_answer (asked (watch_questions slots) (read_table bytes.now)) (min (length calls.now) (length answers.old)) }
        ensures state { state self.new ≡ (played (asked (watch_questions slots) (read_table bytes.now)) slots (state self.old) (F.Feed.entries feed.old) (take (min (length calls.now) (length answers.old)) calls.now)).state }
        ensures entries { F.Feed.entries feed.new ≡ (played (asked (watch_questions slots) (read_table bytes.now)) slots (state self.old) (F.Feed.entries feed.old) (take (min (length calls.now) (length answers.old)) calls.now)).rest }
        ensures answers { answers.new ≡ onto (played (asked (watch_questions slots) (read_table bytes.now)) slots (state self.old) (F.Feed.entries feed.old) (take (min (length calls.now) (length answers.old)) calls.now)).answers answers.old }
        ensures reached { (rs : List Record) → asked (watch_questions slots) (read_table bytes.now) ≡ Ok rs → (k : ℕ) → Led rs slots (F.Feed.entries feed.old) (stages (newly_fitted rs slots (F.Feed.entries feed.old)) (take k calls.now)) }
        ensures promise { (rs : List Record) → asked (watch_questions slots) (read_table bytes.now) ≡ Ok rs → (k : ℕ) → Kept rs slots (F.Feed.entries feed.old) (stages (newly_fitted rs slots (F.Feed.entries feed.old)) (take k calls.now)) }
    {
        self.fit(bytes, slots)?;
        Ok(self.make_calls(feed, calls, answers))
    }

    // Makes the calls on the watch as it is.
    fn make_calls<F: Feed>(&mut self, feed: &mut F, calls: &[Call], answers: &mut [Answer]) -> usize
        ensures count { result ≡ min (length calls.now) (length answers.old) }
        ensures state { state self.new ≡ (stages (stage_at (state self.old) (F.Feed.entries feed.old)) (take result calls.now)).state }
        ensures entries { F.Feed.entries feed.new ≡ (stages (stage_at (state self.old) (F.Feed.entries feed.old)) (take result calls.now)).rest }
        ensures answers { answers.new ≡ onto (stages (stage_at (state self.old) (F.Feed.entries feed.old)) (take result calls.now)).answers answers.old }
    {
        let n = calls.len().min(answers.len());
        for (i, call) in calls[..n].iter().enumerate() {
            answers[i] = self.answer(feed, *call);
        }
        n
    }
}

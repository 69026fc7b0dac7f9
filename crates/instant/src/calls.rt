// The calls of the instant watch.
ghost use Rattle.std.specs.Prelude.{◌≡◌, ◌<◌, ◌≤◌, true, false, List, [], ◌∷◌, map, length, is_ok, if◌then◌else◌, Some, None, OnErr};
ghost use Rattle.rule.specs.Components.{components, first_component};
ghost use Rattle.rule.specs.Reading.{asked, instant_questions, read_table, records};
ghost use Rattle.rule.specs.declared.record.Record.TheVariants.{True};
ghost use Rattle.logic.specs.Logic.{Accepted};
ghost use Rattle.instant.specs.Answers.{fit_answer, fitted_records, step_answer};
ghost use Rattle.instant.specs.Runs.{Judged, Run, RunsWitnessed, taken, Witnessed};
ghost use Rattle.instant.specs.Step.{gap_from, ruled, shelf_after, values};

use crate::refusal::StepRefusal;
use crate::shelf::{advance, last_value};
use crate::watch::InstantWatch;
use feed::LETTERS;
use rule::{Rule, RuleRefusal};
use truth::Truth;

impl InstantWatch {
    // Before its first fitting a watch has the rule true, and no point.
    pub fn new() -> InstantWatch
        ensures rule { records result.rule ≡ True ∷ [] }
        ensures newest { result.newest ≡ None }
    {
        InstantWatch {
            rule: Rule::always(),
            newest: None,
        }
    }

    // Fits the rule of a table, and leaves no point; a refusal leaves the watch as it was.
    pub fn fit(&mut self, bytes: &[u8]) -> Result<(), RuleRefusal>
        ensures answer { result ≡ fit_answer (asked instant_questions (read_table bytes.now)) }
        ensures rule { records self.new.rule ≡ fitted_records (asked instant_questions (read_table bytes.now)) (records self.old.rule) }
        ensures newest { self.new.newest ≡ (if is_ok result then None else self.old.newest) }
        ensures unchanged { OnErr result (self.new ≡ self.old) }
    {
        let rule = Rule::for_instant(bytes)?;
        *self = InstantWatch { rule, newest: None };
        Ok(())
    }

    // The questions of a step, in their order.
    fn ask(&self, stamp: u32, letters: usize, shelf: usize) -> Result<(), StepRefusal>
        ensures { result ≡ step_answer (components (records self.now.rule)) self.now.newest stamp letters shelf }
    {
        if letters != LETTERS as usize {
            return Err(StepRefusal::Letters);
        }
        if shelf < 2 * self.components() {
            return Err(StepRefusal::Shelf);
        }
        if self.newest.is_some_and(|before| stamp < before) {
            return Err(StepRefusal::Stamp);
        }
        Ok(())
    }

    // The gap from the newest point, if there is one.
    fn gap_to(&self, stamp: u32) -> Option<u32>
        ensures { result ≡ gap_from self.now.newest stamp }
    {
        self.newest.map(|before| stamp.saturating_sub(before))
    }

    // Takes a point: the newest values go to the front of the shelf, those of the point before behind them, and the rule's
    // value to the place. A refusal alters nothing. Where the shelf goes from step to step unaltered, each record's value is
    // the one that the published logic gives it.
    pub fn step<T: Truth + Copy>(
        &mut self,
        stamp: u32,
        letters: &[T],
        shelf: &mut [T],
        place: &mut T,
    ) -> Result<(), StepRefusal>
        ensures answer { result ≡ step_answer (components (records self.old.rule)) self.old.newest stamp (length letters.now) (length shelf.old) }
        ensures shelf { shelf.new ≡ (if is_ok result then shelf_after T.Truth.ops (records self.old.rule) self.old.newest stamp letters.now shelf.old else shelf.old) }
        ensures place { place.new ≡ (if is_ok result then ruled T.Truth.ops (records self.old.rule) (values T.Truth.ops (records self.old.rule) self.old.newest stamp letters.now shelf.old) else place.old) }
        ensures newest { self.new.newest ≡ (if is_ok result then Some stamp else self.old.newest) }
        ensures rule { self.new.rule ≡ self.old.rule }
        ensures runs { (ps : List (Accepted T)) → Run T.Truth.ops (records self.old.rule) ps self.old.newest shelf.old → is_ok result ≡ true → Run T.Truth.ops (records self.old.rule) (taken T.Truth.ops stamp letters.now ∷ ps) self.new.newest shelf.new }
        ensures witnessed { (ps : List (Accepted T)) → Run T.Truth.ops (records self.old.rule) ps self.old.newest shelf.old → is_ok result ≡ true → Witnessed T.Truth.ops (records self.old.rule) (taken T.Truth.ops stamp letters.now) ps shelf.new }
        ensures judged { (ps : List (Accepted T)) → Run T.Truth.ops (records self.old.rule) ps self.old.newest shelf.old → is_ok result ≡ true → Judged T.Truth.ops (records self.old.rule) (taken T.Truth.ops stamp letters.now) ps place.new }
    {
        self.ask(stamp, letters.len(), shelf.len())?;
        let gap = self.gap_to(stamp);
        advance(&self.rule, gap, letters, shelf);
        *place = last_value(&self.rule, shelf);
        self.newest = Some(stamp);
        Ok(())
    }
}

// The plain kind: a sample is judged at once, yes or no.
ghost use Rattle.std.specs.Prelude.{◌≡◌, Bool, true, List, ◌∷◌, length, is_ok, IfOk, if◌then◌else◌, Some};
ghost use Rattle.truth.specs.Plain.{plainly};
ghost use Rattle.feed.specs.Entries.{letter_count};
ghost use Rattle.rule.specs.Components.{components};
ghost use Rattle.rule.specs.Reading.{records};
ghost use Rattle.logic.specs.Logic.{Accepted};
ghost use Rattle.instant.specs.Answers.{step_answer, with_value};
ghost use Rattle.instant.specs.Runs.{Run, Says, taken, word_letters};
ghost use Rattle.instant.specs.Step.{ruled, shelf_after, values};

use crate::refusal::StepRefusal;
use crate::watch::InstantWatch;
use feed::Sample;

impl InstantWatch {
    // Whether the rule is true at a sample: a step in the plain kind. Where the shelf goes from step to step unaltered, the
    // answer says exactly whether the rule is true there, in the published logic, in every endless stream that begins with
    // the points so far. A refusal alters nothing.
    pub fn judge(&mut self, sample: Sample, shelf: &mut [bool]) -> Result<bool, StepRefusal>
        ensures answer { result ≡ with_value (step_answer (components (records self.old.rule)) self.old.newest sample.stamp letter_count (length shelf.old)) (ruled plainly (records self.old.rule) (values plainly (records self.old.rule) self.old.newest sample.stamp (word_letters sample.letters) shelf.old)) }
        ensures shelf { shelf.new ≡ (if is_ok result then shelf_after plainly (records self.old.rule) self.old.newest sample.stamp (word_letters sample.letters) shelf.old else shelf.old) }
        ensures newest { self.new.newest ≡ (if is_ok result then Some sample.stamp else self.old.newest) }
        ensures rule { self.new.rule ≡ self.old.rule }
        ensures runs { (ps : List (Accepted Bool)) → Run plainly (records self.old.rule) ps self.old.newest shelf.old → is_ok result ≡ true → Run plainly (records self.old.rule) (taken plainly sample.stamp (word_letters sample.letters) ∷ ps) self.new.newest shelf.new }
        ensures says { IfOk result (λ b. (ps : List (Accepted Bool)) → Run plainly (records self.old.rule) ps self.old.newest shelf.old → Says (records self.old.rule) (taken plainly sample.stamp (word_letters sample.letters)) ps b) }
    {
        let letters = sample.spelled();
        let mut place = false;
        self.step(sample.stamp, &letters, shelf, &mut place)?;
        Ok(place)
    }
}

// Fitting a watch with a rule.
ghost use Rattle.std.specs.Prelude.{◌≡◌, [], ◌∷◌, OnErr};
ghost use Rattle.rule.specs.Reading.{asked, read_table, watch_questions};
ghost use Rattle.rule.specs.declared.record.Record.TheVariants.{True};
ghost use Rattle.instant.specs.Answers.{fit_answer};
ghost use Rattle.logic.specs.States.{fitted};
ghost use Rattle.watch.specs.States.{state};
ghost use Rattle.watch.specs.Fittings.{after_fitting};

use crate::arrival::Arrival;
use crate::watch::{MOST_TREATED, Watch};
use feed::Sample;
use logic::{HeldPoint, Point};
use rule::{MOST_COMPONENTS, MOST_WAITS, Rule, RuleRefusal};
use truth::{Condition, Truth};

impl Watch {
    // Before its first fitting a watch has the rule true and one slot.
    pub fn new() -> Watch
        ensures { state result ≡ fitted (True ∷ []) 1 }
    {
        let never = Condition::never();
        let nobody = HeldPoint {
            point: Point::default(),
            condition: never,
        };
        Watch {
            rule: Rule::always(),
            slots: 1,
            drawn: 0,
            accepted: 0,
            turned_away: 0,
            newest: None,
            values: [never; MOST_COMPONENTS],
            held: [nobody; MOST_TREATED],
            count: 0,
            arrival: Arrival::new(
                Sample {
                    stamp: 0,
                    letters: 0,
                },
                None,
            ),
            fresh: [never; MOST_COMPONENTS],
            becomes: [never; MOST_WAITS],
            saved: [nobody; MOST_TREATED],
        }
    }

    // Fits the rule of a table with so many slots, and leaves nothing drawn and no points; a refusal leaves the watch as it was.
    pub fn fit(&mut self, bytes: &[u8], slots: usize) -> Result<(), RuleRefusal>
        ensures answer { result ≡ fit_answer (asked (watch_questions slots) (read_table bytes.now)) }
        ensures state { state self.new ≡ after_fitting (asked (watch_questions slots) (read_table bytes.now)) slots (state self.old) }
        ensures unchanged { OnErr result (self.new ≡ self.old) }
    {
        let rule = Rule::for_watch(bytes, slots)?;
        self.rule = rule;
        self.slots = slots;
        self.drawn = 0;
        self.accepted = 0;
        self.turned_away = 0;
        self.newest = None;
        self.count = 0;
        Ok(())
    }
}

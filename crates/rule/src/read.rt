// Reads a rule from its bytes, and asks the questions of the fitting.
ghost use Rattle.std.specs.Prelude.{◌≡◌, ◌≤◌, false, IfOk};
ghost use Rattle.rule.specs.Components.{any_ahead, components, waits};
ghost use Rattle.rule.specs.Reading.{TablesSound, asked, instant_questions, length_allowed, read_table, records, told, watch_questions};

use crate::check::Fields;
use crate::limits::{MOST_COMPONENTS, MOST_RECORDS, MOST_SLOTS, MOST_WAITS, RECORD_BYTES};
use crate::record::Record;
use crate::refusal::RuleRefusal;
use crate::table::Rule;

// Whether a table can have this many bytes.
fn length_allowed(size: usize) -> bool
    ensures { result ≡ length_allowed size }
{
    (RECORD_BYTES..=MOST_RECORDS * RECORD_BYTES).contains(&size)
        && size.is_multiple_of(RECORD_BYTES)
}

impl Rule {
    // The rule of a table: its length and each record are asked about, in turn.
    pub fn read(bytes: &[u8]) -> Result<Rule, RuleRefusal>
        ensures { told result ≡ read_table bytes.now }
    {
        if !length_allowed(bytes.len()) {
            return Err(RuleRefusal::Length);
        }
        let mut table = [Record::True; MOST_RECORDS];
        let mut len: u8 = 0;
        let mut rest = bytes;
        while let [kind, left, right, low, high, tail @ ..] = rest {
            let fields = Fields {
                kind: *kind,
                left: *left,
                right: *right,
                low: *low,
                high: *high,
            };
            fields.check(len)?;
            table[usize::from(len)] = fields.record();
            len += 1;
            rest = tail;
        }
        Ok(Rule::of(table, usize::from(len)))
    }

    // What a watch with so many slots asks of the rule.
    fn ask_for_watch(&self, slots: usize) -> Result<(), RuleRefusal>
        ensures { result ≡ watch_questions slots (records self.now) }
    {
        if self.waits() > MOST_WAITS {
            return Err(RuleRefusal::Waits);
        }
        if self.components() > MOST_COMPONENTS {
            return Err(RuleRefusal::Components);
        }
        if !(1..=MOST_SLOTS).contains(&slots) {
            return Err(RuleRefusal::Slots);
        }
        Ok(())
    }

    // What an instant watch asks of the rule.
    fn ask_for_instant(&self) -> Result<(), RuleRefusal>
        ensures { result ≡ instant_questions (records self.now) }
    {
        if self.looks_ahead() {
            return Err(RuleRefusal::LooksAhead);
        }
        if self.components() > MOST_COMPONENTS {
            return Err(RuleRefusal::Components);
        }
        Ok(())
    }

    // The rule of a table that a watch with so many slots can be fitted with.
    pub fn for_watch(bytes: &[u8], slots: usize) -> Result<Rule, RuleRefusal>
        ensures answer { told result ≡ asked (watch_questions slots) (read_table bytes.now) }
        ensures limits { IfOk result (λ rule. (waits (records rule) ≤ 10) × (components (records rule) ≤ 64) × (1 ≤ slots) × (slots ≤ 128)) }
    {
        let rule = Rule::read(bytes)?;
        rule.ask_for_watch(slots)?;
        Ok(rule)
    }

    // The rule of a table that an instant watch can be fitted with.
    pub fn for_instant(bytes: &[u8]) -> Result<Rule, RuleRefusal>
        ensures answer { told result ≡ asked instant_questions (read_table bytes.now) }
        ensures limits { IfOk result (λ rule. (any_ahead (records rule) ≡ false) × (components (records rule) ≤ 64)) }
    {
        let rule = Rule::read(bytes)?;
        rule.ask_for_instant()?;
        Ok(rule)
    }
}

// The records that a watch is fitted with can stand where they do, there is at least one, and they have few waits.
pub fn tables_are_sound()
    ensures { TablesSound }
{}

// What the program can print.
ghost use Rattle.std.specs.Prelude.{◌≡◌};
ghost use Rattle.rule.specs.Refusals.{refusal_number};
ghost use Rattle.lines.specs.declared.report.Report.TheVariants.{RuleRefused};

use feed::Fault;
use logic::{Line, Point};
use rule::RuleRefusal;

// How many entries were drawn, accepted and turned away, and how many points are held.
#[derive(Clone, Copy, PartialEq, Eq, Debug)]
pub struct Counts {
    pub drawn: u32,
    pub accepted: u32,
    pub turned_away: u32,
    pub held: u32,
}

// All that the program can print, one line each.
#[derive(Clone, Copy, PartialEq, Eq, Debug)]
pub enum Report {
    // A line of the verdict.
    Line(Line),
    // A point whose truth is not settled.
    Held(Point),
    // A sample that is refused, by its place and the number of the refusal.
    Refused {
        place: u64,
        number: u8,
    },
    // A spoiled entry, by its place and the number of the refusal.
    Spoiled {
        place: u64,
        number: u8,
        fault: Fault,
    },
    // What was counted.
    Counts(Counts),
    // A rule that is refused, by the number of the refusal.
    RuleRefused {
        number: u8,
    },
    // A log that has too many bytes.
    LogTooLong,
}

// A rule's refusal is reported by its number.
impl From<RuleRefusal> for Report {
    ghost from_gives = { λ refusal report. report ≡ RuleRefused (refusal_number refusal) };

    fn from(refusal: RuleRefusal) -> Report {
        Report::RuleRefused {
            number: refusal.number(),
        }
    }
}

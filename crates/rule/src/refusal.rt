// Why a rule is not fitted.
ghost use Rattle.std.specs.Prelude.{◌≡◌};
ghost use Rattle.rule.specs.Refusals.{refusal_number};

// The first question that was answered no.
#[derive(Clone, Copy, PartialEq, Eq, Debug)]
pub enum RuleRefusal {
    Length = 1,
    Kind = 2,
    Argument = 3,
    Field = 4,
    Interval = 5,
    Waits = 6,
    Components = 7,
    Slots = 8,
    LooksAhead = 9,
}

impl RuleRefusal {
    // The number of the question.
    pub fn number(self) -> u8
        ensures { result ≡ refusal_number self }
    {
        self as u8
    }
}

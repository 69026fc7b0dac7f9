// Why a step is not taken.
ghost use Rattle.std.specs.Prelude.{◌≡◌};
ghost use Rattle.instant.specs.Answers.{step_number};

// The first question that was answered no.
#[derive(Clone, Copy, PartialEq, Eq, Debug)]
pub enum StepRefusal {
    Letters = 41,
    Shelf = 42,
    Stamp = 25,
}

impl StepRefusal {
    // The number of the question.
    pub fn number(self) -> u8
        ensures { result ≡ step_number self }
    {
        self as u8
    }
}

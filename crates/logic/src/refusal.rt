// Why a draw is refused.
ghost use Rattle.std.specs.Prelude.{◌≡◌};
ghost use Rattle.logic.specs.Refusals.{draw_number};

use feed::Fault;

// The first question that was answered no. The first three alter nothing; the others have drawn the entry at a place.
#[derive(Clone, Copy, PartialEq, Eq, Debug)]
pub enum DrawRefusal {
    // As many entries were drawn as can be counted.
    Counted,
    // The tray is not longer than the points held.
    Tray,
    // No entry is left.
    Ended,
    // The entry is spoiled.
    Spoiled { place: u64, fault: Fault },
    // The stamp is below the newest point's.
    Stamp { place: u64 },
    // There is no offset left at the stamp.
    Crowded { place: u64 },
    // More points would be held than there are slots.
    Slots { place: u64 },
}

impl DrawRefusal {
    // The number of the question.
    pub fn number(self) -> u8
        ensures { result ≡ draw_number self }
    {
        match self {
            DrawRefusal::Counted => 21,
            DrawRefusal::Tray => 22,
            DrawRefusal::Ended => 23,
            DrawRefusal::Spoiled { .. } => 24,
            DrawRefusal::Stamp { .. } => 25,
            DrawRefusal::Crowded { .. } => 26,
            DrawRefusal::Slots { .. } => 27,
        }
    }
}

// The letters of a sample as conditions.
ghost use Rattle.std.specs.Prelude.{◌≡◌, map};
ghost use Rattle.std.specs.List.{range_with_len};
ghost use Rattle.feed.specs.Entries.{letter_count};
ghost use Rattle.logic.specs.Draws.{lettered};

use crate::arrival::Arrival;
use feed::Sample;
use truth::Condition;

// Spells the letters of a sample where those of an older one stand.
fn spell(letters: &mut [Condition], old: Sample, new: Sample)
    requires { letters.old ≡ map (lettered old.letters) (range_with_len 0 letter_count) }
    ensures { letters.new ≡ map (lettered new.letters) (range_with_len 0 letter_count) }
{
    for (k, letter) in letters.iter_mut().enumerate() {
        let truth = new.letter(k as u8);
        if old.letter(k as u8) != truth {
            *letter = Condition::from(truth);
        }
    }
}

impl Arrival {
    // A sample that arrives with a gap from the point before, if there is one.
    pub(crate) fn new(sample: Sample, gap: Option<u32>) -> Arrival
        ensures sample { result.sample ≡ sample }
        ensures gap { result.gap ≡ gap }
    {
        Arrival {
            sample,
            letters: sample.spelled().map(Condition::from),
            gap,
        }
    }

    // The next sample that arrives, with its gap.
    pub(crate) fn renew(&mut self, sample: Sample, gap: Option<u32>)
        ensures sample { self.new.sample ≡ sample }
        ensures gap { self.new.gap ≡ gap }
    {
        spell(&mut self.letters, self.sample, sample);
        self.sample = sample;
        self.gap = gap;
    }
}

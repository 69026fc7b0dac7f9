// Open conditions as a kind of truth: each operation goes word by word.
ghost use Rattle.std.specs.Prelude.{◌≡◌, Decides, if◌then◌else◌};
ghost use Rattle.truth.specs.Laws.{Laws, Meant, Ops, Splits};
ghost use Rattle.truth.specs.Plain.{plainly};
ghost use Rattle.truth.specs.Tables.{means, openly, uniform};
ghost use Rattle.truth.specs.Words.{settings};
ghost use Rattle.truth.specs.Meaning.{open_laws, open_splits};

use crate::kind::{Boolean, Truth};
use crate::table::{Condition, WORDS};
use std::array;

// Every word is the same.
fn filled(word: u64) -> Condition
    ensures { result ≡ uniform word }
{
    Condition {
        words: [word; WORDS],
    }
}

impl Condition {
    // Whether every word is the same as `word`. The loop goes by index, since one over the words themselves is compiled to compare
    // all of them, where the first word mostly tells.
    fn is_all(&self, word: u64) -> bool
        ensures { Decides result (self.now ≡ uniform word) }
    {
        for i in 0..WORDS {
            if self.words[i] != word {
                return false;
            }
        }
        true
    }

    // Whether the condition is always.
    pub fn is_always(&self) -> bool
        ensures { Decides result (self.now ≡ openly.always) }
    {
        self.is_all(u64::MAX)
    }

    // Whether the condition is never.
    pub fn is_never(&self) -> bool
        ensures { Decides result (self.now ≡ openly.never) }
    {
        self.is_all(0)
    }
}

impl Truth for Condition {
    ghost ops = { openly };

    ghost laws = { open_laws };

    fn never() -> Condition {
        filled(0)
    }

    fn always() -> Condition {
        filled(u64::MAX)
    }

    fn both(self, other: Condition) -> Condition {
        Condition {
            words: array::from_fn(|i| self.words[i] & other.words[i]),
        }
    }

    fn either(self, other: Condition) -> Condition {
        Condition {
            words: array::from_fn(|i| self.words[i] | other.words[i]),
        }
    }

    fn not(self) -> Condition {
        Condition {
            words: array::from_fn(|i| !self.words[i]),
        }
    }

    fn same(&self, other: &Condition) -> bool {
        for (own, word) in self.words.iter().zip(&other.words) {
            if own != word {
                return false;
            }
        }
        true
    }
}

// The condition that has one value at every setting.
impl From<bool> for Condition {
    ghost from_gives = { λ value r. r ≡ (if value then openly.always else openly.never) };

    fn from(value: bool) -> Condition {
        if value {
            Condition::always()
        } else {
            Condition::never()
        }
    }
}

impl Boolean for Condition {
    ghost splits = { open_splits };
}

// At each setting of the waits the operations are the plain ones, and conditions that agree at every setting are the same.
pub fn conditions_stand()
    ensures { Meant openly plainly settings means }
{}

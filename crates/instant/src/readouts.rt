// The read-outs of the instant watch.
ghost use Rattle.std.specs.Prelude.{◌≡◌, ◌≤◌};
ghost use Rattle.rule.specs.Components.{components};
ghost use Rattle.rule.specs.Reading.{records};

use crate::watch::InstantWatch;

impl InstantWatch {
    // The stamp of the newest point, if there is one.
    pub fn newest(&self) -> Option<u32>
        ensures { result ≡ self.now.newest }
    {
        self.newest
    }

    // How many components the rule has: a step wants a shelf of twice as many places.
    pub fn components(&self) -> usize
        ensures value { result ≡ components (records self.now.rule) }
        ensures bound { result ≤ 64 }
    {
        self.rule.components()
    }
}

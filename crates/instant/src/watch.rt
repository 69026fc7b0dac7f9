// The state of an instant watch.
ghost use Rattle.std.specs.Prelude.{◌≡◌, ◌≤◌, false};
ghost use Rattle.rule.specs.Components.{any_ahead, components};
ghost use Rattle.rule.specs.Reading.{records};

use rule::Rule;

// A fitted rule without future operators, and the stamp of the newest point, if there is one. The values lie on a shelf
// that the caller lends to each step.
#[derive(Clone, Copy)]
pub struct InstantWatch {
    pub(crate) rule: Rule,
    pub(crate) newest: Option<u32>,
    ghost past: { any_ahead (records rule) ≡ false },
    ghost few: { components (records rule) ≤ 64 },
}

// The plain kind: yes and no.
ghost use Rattle.truth.specs.Laws.{Laws, Ops, Splits};
ghost use Rattle.truth.specs.Plain.{plainly};
ghost use Rattle.truth.specs.Plainly.{plain_laws, plain_splits};

use crate::kind::{Boolean, Truth};

impl Truth for bool {
    ghost ops = { plainly };

    ghost laws = { plain_laws };

    fn never() -> bool {
        false
    }

    fn always() -> bool {
        true
    }

    fn both(self, other: bool) -> bool {
        self & other
    }

    fn either(self, other: bool) -> bool {
        self | other
    }

    fn not(self) -> bool {
        !self
    }

    fn same(&self, other: &bool) -> bool {
        *self == *other
    }
}

impl Boolean for bool {
    ghost splits = { plain_splits };
}

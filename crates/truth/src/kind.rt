// What a kind of truth is: values, the operations on them, and the laws that these keep.
ghost use Rattle.std.specs.Prelude.{◌≡◌, Decides};
ghost use Rattle.truth.specs.Laws.{Laws, Ops, Splits};

// A bounded distributive lattice with De Morgan's negation, and a test of sameness.
pub trait Truth: Sized {
    ghost ops: { Ops Self };

    fn never() -> Self
        ensures { result ≡ ops.never };

    fn always() -> Self
        ensures { result ≡ ops.always };

    fn both(self, other: Self) -> Self
        ensures { result ≡ ops.both self other };

    fn either(self, other: Self) -> Self
        ensures { result ≡ ops.either self other };

    fn not(self) -> Self
        ensures { result ≡ ops.not self };

    fn same(&self, other: &Self) -> bool
        ensures { Decides result (self.now ≡ other.now) };

    ghost laws: { Laws ops };
}

// A kind in which a value and its negation leave nothing between them.
pub trait Boolean: Truth {
    ghost splits: { Splits Self.Truth.ops };
}

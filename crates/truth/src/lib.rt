// Kinds of truth: their operations and laws, the plain kind of yes and no, and open conditions with their waits.
#![tactic(auto)]

mod condition;
mod kind;
mod plain;
mod replace;
mod table;

pub use condition::conditions_stand;
pub use kind::{Boolean, Truth};
pub use table::{Condition, WAITS};

#[cfg(test)]
mod tests {
    use crate::kind::Truth;
    use crate::table::Condition;

    #[test]
    fn plain_truth(rt: HostRuntime) {
        assert!(rt; true.either(false) && !true.both(false));
        assert!(rt; bool::always().same(&bool::never().not()));
    }

    #[test]
    fn open_conditions(rt: HostRuntime) {
        let never = Condition::never();
        assert!(rt; never.same(&Condition::always().not()));
        assert!(rt; never.either(Condition::always()).same(&Condition::always()));
        assert!(rt; !never.same(&Condition::always()));
        assert!(rt; never.same(&Condition::from(false)));
        assert!(rt; Condition::from(true).is_always() && never.is_never());
    }

    #[test]
    fn replaced_waits(rt: HostRuntime) {
        let never = Condition::never();
        let a = Condition::wait(0);
        let b = Condition::wait(1);
        let c = Condition::wait(7);
        assert!(rt; a.both(b).replaced(&[b, a]).same(&a.both(b)));
        assert!(rt; a.replaced(&[b, a]).same(&b) && b.replaced(&[b, a]).same(&a));
        let some = c.either(b);
        assert!(rt;
            a.both(b)
                .replaced(&[some, a.not()])
                .same(&some.both(a.not()))
        );
        assert!(rt; some.replaced(&[never, a]).same(&a));
        assert!(rt; c.value_at(128) && !c.value_at(127) && !c.not().value_at(1024));
        assert!(rt; Condition::wait(10).same(&never));
    }
}

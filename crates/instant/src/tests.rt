// The instant watch on examples.
use crate::{InstantWatch, StepRefusal, value_or_never};
use feed::Sample;
use rule::RuleRefusal;
use std::process::Abort;
use truth::{Condition, Truth};

// Fits a rule, judges samples, each with the answer that is wanted, and uses the shelf for it.
fn judges(rt: &impl Abort, rule: &[u8], samples: &[(u32, u16, bool)], shelf: &mut [bool]) {
    let mut watch = InstantWatch::new();
    assert_eq!(rt; watch.fit(rule), Ok(()));
    for (stamp, letters, want) in samples {
        let sample = Sample {
            stamp: *stamp,
            letters: *letters,
        };
        assert_eq!(rt; watch.judge(sample, shelf), Ok(*want));
    }
}

#[test]
fn before_any_fitting(rt: HostRuntime) {
    let mut watch = InstantWatch::new();
    assert_eq!(rt; watch.components(), 1);
    let sample = Sample {
        stamp: 7,
        letters: 0,
    };
    assert_eq!(rt; watch.judge(sample, &mut [false; 2]), Ok(true));
}

#[test]
fn previous_and_since(rt: HostRuntime) {
    // the letter 0 was there at the point before, at the same stamp
    judges(
        &rt,
        &[1, 0, 0, 0, 0, 5, 0, 0, 0, 0],
        &[(5, 1, false), (5, 0, true), (6, 1, false)],
        &mut [false; 4],
    );
    // letter 0 since, one to two minutes ago, letter 1
    judges(
        &rt,
        &[1, 0, 0, 0, 0, 1, 1, 0, 0, 0, 6, 0, 1, 1, 2],
        &[(3, 2, false), (4, 1, true), (6, 1, false)],
        &mut [false; 10],
    );
    // letter 0 since, two or more minutes ago, letter 1
    judges(
        &rt,
        &[1, 0, 0, 0, 0, 1, 1, 0, 0, 0, 6, 0, 1, 2, 255],
        &[
            (0, 2, false),
            (1, 1, false),
            (2, 1, true),
            (900, 1, true),
            (900, 0, false),
        ],
        &mut [false; 10],
    );
}

#[test]
fn refusals(rt: HostRuntime) {
    let mut watch = InstantWatch::new();
    assert_eq!(rt;
        watch.fit(&[1, 0, 0, 0, 0, 1, 1, 0, 0, 0, 6, 0, 1, 1, 2]),
        Ok(())
    );
    let mut shelf = [false; 10];
    let mut place = false;
    assert_eq!(rt;
        watch.step(4, &[true; 11], &mut shelf, &mut place),
        Err(StepRefusal::Letters)
    );
    assert_eq!(rt;
        watch.step(4, &[true; 12], &mut shelf[1..], &mut place),
        Err(StepRefusal::Shelf)
    );
    assert_eq!(rt; watch.step(4, &[true; 12], &mut shelf, &mut place), Ok(()));
    assert_eq!(rt;
        watch.step(3, &[true; 12], &mut shelf, &mut place),
        Err(StepRefusal::Stamp)
    );
    // the questions are asked in this order
    assert_eq!(rt;
        watch.step(3, &[true; 13], &mut [], &mut place),
        Err(StepRefusal::Letters)
    );
    assert_eq!(rt;
        watch.step(3, &[true; 12], &mut [], &mut place),
        Err(StepRefusal::Shelf)
    );
    assert_eq!(rt; StepRefusal::Letters.number(), 41);
    assert_eq!(rt; StepRefusal::Shelf.number(), 42);
    assert_eq!(rt; StepRefusal::Stamp.number(), 25);
}

#[test]
fn refused_fitting_changes_nothing(rt: HostRuntime) {
    let mut watch = InstantWatch::new();
    assert_eq!(rt; watch.fit(&[1, 0, 0, 0, 0]), Ok(()));
    let mut shelf = [false; 2];
    let sample = Sample {
        stamp: 9,
        letters: 1,
    };
    assert_eq!(rt; watch.judge(sample, &mut shelf), Ok(true));
    assert_eq!(rt;
        watch.fit(&[0, 0, 0, 0, 0, 7, 0, 0, 0, 0]),
        Err(RuleRefusal::LooksAhead)
    );
    let late = Sample {
        stamp: 8,
        letters: 1,
    };
    assert_eq!(rt; watch.judge(late, &mut shelf), Err(StepRefusal::Stamp));
}

#[test]
fn open_conditions(rt: HostRuntime) {
    // not letter 3, in the kind of open conditions
    let mut watch = InstantWatch::new();
    assert_eq!(rt; watch.fit(&[1, 3, 0, 0, 0, 2, 0, 0, 0, 0]), Ok(()));
    let never = Condition::never();
    let mut letters = [never; 12];
    letters[3] = Condition::always();
    let mut place = Condition::always();
    assert_eq!(rt;
        watch.step(0, &letters, &mut [never; 4], &mut place),
        Ok(())
    );
    assert!(rt; place.same(&never));
}

#[test]
fn values_at_places(rt: HostRuntime) {
    assert!(rt; value_or_never(&[false, true], Some(1)));
    assert!(rt; !value_or_never(&[true, true], Some(2)) && !value_or_never(&[true], None));
}

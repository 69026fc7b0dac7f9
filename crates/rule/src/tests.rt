// Reading rules on examples.
use crate::{Record, Rule, RuleRefusal};
use std::test::Fail;

// The number with which a table is refused for a watch, if it is.
fn for_watch(bytes: &[u8], slots: usize) -> Result<(), u8> {
    Rule::for_watch(bytes, slots)
        .map(|_| ())
        .map_err(RuleRefusal::number)
}

// The number with which a table is refused for an instant watch, if it is.
fn for_instant(bytes: &[u8]) -> Result<(), u8> {
    Rule::for_instant(bytes)
        .map(|_| ())
        .map_err(RuleRefusal::number)
}

#[test]
fn lengths(rt: HostRuntime) {
    let table = [0; 165];
    let cases = [
        (0, Err(1)),
        (1, Err(1)),
        (4, Err(1)),
        (5, Ok(())),
        (6, Err(1)),
        (159, Err(1)),
        (160, Ok(())),
        (161, Err(1)),
        (165, Err(1)),
    ];
    for (size, want) in cases {
        assert_eq!(rt; for_watch(&table[0..size], 1), want);
    }
}

#[test]
fn records_in_turn(rt: HostRuntime) {
    let cases: [(&[u8], Result<(), u8>); 12] = [
        (&[9, 0, 0, 0, 0], Err(2)),
        (&[2, 0, 0, 0, 0], Err(3)),
        (&[0, 0, 0, 0, 0, 3, 0, 1, 0, 0], Err(3)),
        (&[1, 12, 0, 0, 0], Err(4)),
        (&[1, 11, 0, 0, 0], Ok(())),
        (&[0, 0, 0, 0, 1], Err(4)),
        (&[0, 0, 0, 0, 0, 5, 0, 1, 0, 0], Err(4)),
        (&[0, 0, 0, 0, 0, 5, 0, 0, 2, 1], Err(5)),
        (&[0, 0, 0, 0, 0, 5, 0, 0, 0, 21], Err(5)),
        (&[0, 0, 0, 0, 0, 5, 0, 0, 21, 255], Err(5)),
        (&[0, 0, 0, 0, 0, 5, 0, 0, 20, 255], Ok(())),
        // the first record that fails is the one that is told
        (&[1, 12, 0, 0, 0, 9, 0, 0, 0, 0], Err(4)),
    ];
    for (bytes, want) in cases {
        assert_eq!(rt; for_watch(bytes, 1), want);
    }
}

// Three sinces of 21 components each, and one more record.
const SINCES: [u8; 25] = [
    0, 0, 0, 0, 0, 6, 0, 0, 0, 20, 6, 0, 0, 0, 20, 6, 0, 0, 0, 20, 0, 0, 0, 0, 0,
];

#[test]
fn limits(rt: HostRuntime) {
    let sinces = SINCES;
    let cases: [(&[u8], usize, Result<(), u8>); 7] = [
        // an until of ten waits, and one with a next beside it
        (&[0, 0, 0, 0, 0, 8, 0, 0, 0, 9], 1, Ok(())),
        (&[0, 0, 0, 0, 0, 7, 0, 0, 0, 0, 8, 0, 0, 0, 9], 1, Err(6)),
        (&sinces[0..20], 1, Ok(())),
        (&sinces, 1, Err(7)),
        (&[0, 0, 0, 0, 0], 0, Err(8)),
        (&[0, 0, 0, 0, 0], 128, Ok(())),
        (&[0, 0, 0, 0, 0], 129, Err(8)),
    ];
    for (bytes, slots, want) in cases {
        assert_eq!(rt; for_watch(bytes, slots), want);
    }
}

#[test]
fn instant_limits(rt: HostRuntime) {
    let sinces = SINCES;
    let cases: [(&[u8], Result<(), u8>); 4] = [
        (&sinces[0..20], Ok(())),
        (&sinces, Err(7)),
        (&[0, 0, 0, 0, 0, 7, 0, 0, 0, 0], Err(9)),
        (&[0, 0, 0, 0, 0, 8, 0, 0, 0, 20], Err(9)),
    ];
    for (bytes, want) in cases {
        assert_eq!(rt; for_instant(bytes), want);
    }
}

#[test]
fn numbers_of_parts(rt: HostRuntime) -> Result<(), Fail> {
    let bytes = [0, 0, 0, 0, 0, 6, 0, 0, 1, 2, 8, 0, 1, 3, 255, 7, 2, 0, 0, 0];
    let Ok(rule) = Rule::read(&bytes) else {
        return Err(Fail::new("refused"));
    };
    assert_eq!(rt; rule.len(), 4);
    assert_eq!(rt; rule.components(), 9);
    assert_eq!(rt; rule.first_component(2), 4);
    assert_eq!(rt; rule.first_component(9), 9);
    assert_eq!(rt; rule.waits(), 5);
    assert_eq!(rt; rule.first_wait(3), 4);
    assert!(rt; matches!(rule.record(3), Record::Next(_, 2)));
    assert!(rt; rule.looks_ahead() && !Rule::always().looks_ahead());
    assert_eq!(rt; rule.earlier_component(1, 1, Some(1)), Some(3));
    assert_eq!(rt; rule.earlier_component(1, 1, Some(2)), None);
    Ok(())
}

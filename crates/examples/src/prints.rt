// The print of cards on examples.
use printing::{MOST_CARD_BYTES, print_card};
use std::alloc::{AllocError, Global};
use std::process::Abort;
use std::test::Fail;

// True until, within a minute, letter 0.
const SOON: [u8; 15] = [0, 0, 0, 0, 0, 1, 0, 0, 0, 0, 8, 0, 1, 0, 1];

// The card of some samples, each a stamp and a word.
fn card_of(heap: Global, samples: &[(u32, u16)]) -> Result<Vec<u8>, AllocError> {
    let mut card = Vec::new(heap);
    for (stamp, word) in samples {
        card.extend_from_slice(&stamp.to_le_bytes())?;
        card.extend_from_slice(&word.to_le_bytes())?;
    }
    Ok(card)
}

// Holds the print of a card of some samples to `want`.
fn prints(
    rt: &impl Abort,
    heap: Global,
    rule: &[u8],
    samples: &[(u32, u16)],
    want: &str,
) -> Result<(), Fail> {
    let card = card_of(heap, samples)?;
    let text = print_card(heap, rule, &card)?;
    assert_eq!(rt; text.as_slice(), want.as_bytes());
    Ok(())
}

#[test]
fn within_a_minute(rt: HostRuntime) -> Result<(), Fail> {
    let samples = [(10, 0), (10, 0), (11, 0), (11, 1), (9, 0), (13, 0)];
    let want =
        "10:1 = 10:0\n10:0 true\n11:0 true\n11:1 true\nentry 4 refused 25\n13:0 held\ndrawn 6 accepted 5 turned-away 1 held 1\n";
    prints(&rt, rt.alloc(), &SOON, &samples, want)?;
    let want = "10:0 false\n12:0 held\ndrawn 2 accepted 2 turned-away 0 held 1\n";
    prints(&rt, rt.alloc(), &SOON, &[(10, 0), (12, 0)], want)?;
    let want = "10:0 false\n11:0 true\n12:0 true\ndrawn 3 accepted 3 turned-away 0 held 0\n";
    prints(&rt, rt.alloc(), &SOON, &[(10, 0), (11, 0), (12, 1)], want)
}

#[test]
fn other_rules(rt: HostRuntime) -> Result<(), Fail> {
    let sometime = [0, 0, 0, 0, 0, 1, 0, 0, 0, 0, 8, 0, 1, 0, 255];
    let want = "5:0 = 0:0\n9:0 = 0:0\n0:0 held\ndrawn 3 accepted 3 turned-away 0 held 1\n";
    prints(&rt, rt.alloc(), &sometime, &[(0, 0), (5, 0), (9, 0)], want)?;
    let just_before = [1, 0, 0, 0, 0, 5, 0, 0, 0, 0];
    let want = "5:0 false\n5:1 true\n6:0 false\ndrawn 3 accepted 3 turned-away 0 held 0\n";
    prints(
        &rt,
        rt.alloc(),
        &just_before,
        &[(5, 1), (5, 0), (6, 1)],
        want,
    )?;
    let held_on = [1, 0, 0, 0, 0, 1, 1, 0, 0, 0, 6, 0, 1, 1, 2];
    let want = "3:0 false\n4:0 true\n6:0 false\ndrawn 3 accepted 3 turned-away 0 held 0\n";
    prints(&rt, rt.alloc(), &held_on, &[(3, 2), (4, 1), (6, 1)], want)?;
    let a_minute_on = [1, 0, 0, 0, 0, 7, 0, 0, 1, 1];
    let want = "7:0 false\n7:1 true\n8:0 held\ndrawn 3 accepted 3 turned-away 0 held 1\n";
    prints(
        &rt,
        rt.alloc(),
        &a_minute_on,
        &[(7, 0), (7, 1), (8, 1)],
        want,
    )
}

#[test]
fn refused(rt: HostRuntime) -> Result<(), Fail> {
    let fits = [0, 0, 0, 0, 0, 8, 0, 0, 0, 9];
    prints(
        &rt,
        rt.alloc(),
        &fits,
        &[],
        "drawn 0 accepted 0 turned-away 0 held 0\n",
    )?;
    let too_many_waits = [0, 0, 0, 0, 0, 8, 0, 0, 0, 9, 7, 0, 0, 0, 0];
    prints(&rt, rt.alloc(), &too_many_waits, &[], "rule refused 6\n")?;
    prints(&rt, rt.alloc(), &[], &[], "rule refused 1\n")?;
    let card = vec![in rt.alloc(); 0; MOST_CARD_BYTES + 1]?;
    let text = print_card(rt.alloc(), &SOON, &card)?;
    assert_eq!(rt; text.as_slice(), b"log too long\n".as_slice());
    let text = print_card(rt.alloc(), &SOON[1..], &card)?;
    assert_eq!(rt; text.as_slice(), b"rule refused 1\n".as_slice());
    Ok(())
}

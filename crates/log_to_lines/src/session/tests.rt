// A session on examples that no card can reach.
use crate::session::Session;
use feed::{Entry, Sample};
use lines::Report;
use std::test::Fail;

// What a sample without letters at a stamp brings.
fn judged(session: &mut Session, stamp: u32) -> Report {
    session.judge(Entry {
        place: 7,
        content: Ok(Sample { stamp, letters: 0 }),
    })
}

#[test]
fn crowded_stamp(rt: HostRuntime) -> Result<(), Fail> {
    let Ok(mut session) = Session::begin(&[0, 0, 0, 0, 0], 0) else {
        return Err(Fail::new("refused"));
    };
    for _ in 0..65_536 {
        assert!(rt; matches!(judged(&mut session, 5), Report::Line(_)));
    }
    assert_eq!(rt;
        judged(&mut session, 5),
        Report::Refused {
            place: 7,
            number: 26
        }
    );
    assert!(rt; matches!(judged(&mut session, 6), Report::Line(_)));
    Ok(())
}

// The whole print of a card that is judged by a rule.
ghost use Rattle.std.specs.Prelude.{◌≡◌, ◌+◌, ◌≤◌, List, ◌++◌, length, IfOk, Ok, OnOk};
ghost use Rattle.feed.specs.Records.{entries_of};
ghost use Rattle.rule.specs.Reading.{asked, read_table, watch_questions};
ghost use Rattle.rule.specs.declared.record.Record.{Record};
ghost use Rattle.printing.specs.Reports.{all_reports, card_reports, printed};
ghost use Rattle.printing.specs.Told.{Told};
ghost use Rattle.watch.specs.States.{state};

use crate::ending::{put_counts, put_held};
use crate::putting::{put_draw, put_report};
use feed::{Feed, RecordFeed};
use lines::Report;
use logic::{Line, Point};
use rule::MOST_SLOTS;
use std::alloc::{AllocError, Global};
use watch::{MOST_TREATED, Watch};

// A card has no more bytes: ten thousand records of six.
pub const MOST_CARD_BYTES: usize = 10_000 * 6;

// Draws each entry of a card, and puts what it brings behind a text; then the held points and the counts.
fn put_card(out: &mut Vec<u8>, watch: &mut Watch, card: &[u8]) -> Result<(), AllocError>
    requires { (state watch.old).drawn + length (entries_of card.now) ≤ 10000 }
    ensures { OnOk result (out.new.items ≡ out.old.items ++ printed (card_reports (state watch.old) (entries_of card.now))) }
{
    let mut tray = [Line::True(Point::default()); MOST_TREATED];
    let mut feed = RecordFeed::new(card);
    while feed.has_entry() {
        put_draw(out, watch, &mut feed, &mut tray)?;
    }
    put_held(out, watch)?;
    put_counts(out, watch)
}

// The print of a card that is judged by the rule of a table, with 128 slots: why the rule is refused, else that the card is too
// long, else what each entry brings, the points still held, and the counts. What is printed of the entries is the whole of a history of
// draws from a fresh fitting to the card's end, which keeps the promise over every history.
pub fn print_card(heap: Global, rule: &[u8], card: &[u8]) -> Result<Vec<u8>, AllocError>
    ensures text { IfOk result (λ v. v.items ≡ printed (all_reports (asked (watch_questions 128) (read_table rule.now)) card.now)) }
    ensures promise { (rs : List Record) → asked (watch_questions 128) (read_table rule.now) ≡ Ok rs → length card.now ≤ 60000 → Told rs (entries_of card.now) (all_reports (asked (watch_questions 128) (read_table rule.now)) card.now) }
{
    let mut out = Vec::new(heap);
    let mut watch = Watch::new();
    match watch.fit(rule, MOST_SLOTS) {
        Err(refusal) => put_report(&mut out, Report::from(refusal))?,
        Ok(()) if card.len() > MOST_CARD_BYTES => put_report(&mut out, Report::LogTooLong)?,
        Ok(()) => put_card(&mut out, &mut watch, card)?,
    }
    Ok(out)
}

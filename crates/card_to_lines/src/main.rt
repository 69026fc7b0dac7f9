// Judges a card by a rule: reads the file rule.bin and the card on standard input, and prints a line for each outcome.
#![tactic(auto)]

use printing::{MOST_CARD_BYTES, print_card};
use rule::{MOST_RECORDS, RECORD_BYTES};
use std::fs::File;
use std::io;
use std::io::{ErrorKind, Read, Write};

// A rule has no more bytes, so that one more is enough to refuse it.
const MOST_RULE_BYTES: usize = MOST_RECORDS * RECORD_BYTES;

// The first bytes of a reader, at most `most` of them.
fn read_up_to<R: Read + Drop>(rt: &HostRuntime, reader: R, most: u64) -> io::Result<Vec<u8>> {
    let mut bytes = Vec::new(rt.alloc());
    reader.take(most).read_to_end(&mut bytes)?;
    Ok(bytes)
}

// The bytes of the file rule.bin, as far as they count; a missing file is an empty one.
fn read_rule(rt: &HostRuntime) -> io::Result<Vec<u8>> {
    match File::open(rt, "rule.bin") {
        Ok(file) => read_up_to(rt, file, MOST_RULE_BYTES as u64 + 1),
        Err(e) if e.kind() == ErrorKind::NotFound => Ok(Vec::new(rt.alloc())),
        Err(e) => Err(e),
    }
}

// Reads the rule and the card, and prints what comes of them.
fn run(rt: &HostRuntime) -> anyhow::Result<()> {
    let rule = read_rule(rt)?;
    let card = read_up_to(rt, rt.stdin(), MOST_CARD_BYTES as u64 + 1)?;
    let text = print_card(rt.alloc(), &rule, &card)?;
    rt.stdout().write_all(&text)?;
    Ok(())
}

fn main(rt: HostRuntime) -> anyhow::Result<()> {
    run(&rt)
}

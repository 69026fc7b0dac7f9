// The exported functions.
ghost use Rattle.std.specs.Prelude.{◌≡◌};
ghost use Rattle.rule.specs.Reading.{asked, read_table, watch_questions};
ghost use Rattle.feed.specs.Patterns.{pattern_answer, pattern_entries};
ghost use Rattle.speed.specs.Runs.{run_answer, run_counts};

use crate::judging::draw_all;
use feed::Pattern;
use watch::Watch;

// The lines of a run by their kind, and the read-outs of the watch after it.
#[repr(C)]
#[derive(Clone, Copy)]
pub struct Counts {
    pub trues: u64,
    pub falses: u64,
    pub joins: u64,
    pub drawn: u32,
    pub accepted: u32,
    pub turned: u32,
    pub held: u32,
}

// Fits a watch with the rule of a table and so many slots, makes a pattern of `count` samples from the stamp `first`, `per` to
// a stamp, with the words in turn, and draws each of its entries. The answer is 0, or the number of the question that was
// answered no; a refusal leaves the counts as they were.
#[unsafe(no_mangle)]
pub extern "C" fn speed_judge(
    bytes: &[u8],
    slots: usize,
    first: u32,
    per: u32,
    words: &[u16],
    count: u32,
    counts: &mut Counts,
) -> u8
    ensures answer { result ≡ run_answer (asked (watch_questions slots) (read_table bytes.now)) (pattern_answer first per words.now count) }
    ensures counts { counts.new ≡ run_counts (asked (watch_questions slots) (read_table bytes.now)) slots (pattern_answer first per words.now count) (pattern_entries first per words.now count) count counts.old }
{
    let mut watch = Watch::new();
    if let Err(refusal) = watch.fit(bytes, slots) {
        return refusal.number();
    }
    let mut pattern = Pattern::new();
    if let Err(refusal) = pattern.make(first, per, words, count) {
        return refusal.number();
    }
    let tally = draw_all(&mut watch, &mut pattern, count);
    *counts = Counts {
        trues: tally.trues,
        falses: tally.falses,
        joins: tally.joins,
        drawn: watch.drawn(),
        accepted: watch.accepted(),
        turned: watch.turned_away(),
        held: watch.held() as u32,
    };
    0
}

// How many bytes a watch takes.
#[unsafe(no_mangle)]
pub extern "C" fn speed_watch_bytes() -> usize {
    std::mem::size_of::<Watch>()
}

// Open conditions by setting: single waits, values, and all waits replaced together.
ghost use Rattle.std.specs.Prelude.{◌≡◌, ℕ, suc, None, IfSome, ◌+◌, ◌*◌, ◌%◌, ◌^◌, ◌<◌, ◌≤◌, true, List, length, if◌then◌else◌};
ghost use Rattle.truth.specs.declared.table.Condition.{Condition};
ghost use Rattle.truth.specs.Replacing.{packed, partly, replaced, waiting};
ghost use Rattle.truth.specs.Tables.{means, openly, word};
ghost use Rattle.truth.specs.Words.{bit, settings, wait_count, word_count};

use crate::kind::Truth;
use crate::table::{Condition, WAITS, WORDS};
use std::array;

// The waits that differ within a word.
const INNER_WAITS: usize = 6;

// The settings within a word at which each of those waits is true.
const INNER: [u64; INNER_WAITS] = [
    0xaaaa_aaaa_aaaa_aaaa,
    0xcccc_cccc_cccc_cccc,
    0xf0f0_f0f0_f0f0_f0f0,
    0xff00_ff00_ff00_ff00,
    0xffff_0000_ffff_0000,
    0xffff_ffff_0000_0000,
];

// Word `i` of the condition that is wait `w` alone.
fn wait_word(w: usize, i: usize) -> u64
    requires { i < word_count }
    ensures { result ≡ packed (λ j. bit (64 * i + j) w) 64 }
{
    if w < INNER_WAITS {
        INNER[w]
    } else if w < WAITS && (i >> (w - INNER_WAITS)) % 2 == 1 {
        u64::MAX
    } else {
        0
    }
}

// Whether the lower `count` bits of `word` are those above them.
fn bits_repeat(word: u64, count: usize) -> bool
    requires { count < 64 }
    ensures { result ≡ true → (k : ℕ) → k < count → bit word k ≡ bit word (count + k) }
{
    let limit = 1 << count;
    word % limit == (word >> count) % limit
}

impl Condition {
    // The condition that is wait `w` alone.
    pub fn wait(w: usize) -> Condition
        ensures { result ≡ waiting w }
    {
        Condition {
            words: array::from_fn(|i| wait_word(w, i)),
        }
    }

    // The value at the setting `n`; past the last setting it is false.
    pub fn value_at(&self, n: usize) -> bool
        ensures { result ≡ means self.now n }
    {
        n < 64 * WORDS && (self.words[n / 64] >> (n % 64)) % 2 == 1
    }

    // Whether the `count` words from `first` on are those after them.
    fn words_repeat(&self, first: usize, count: usize) -> bool
        requires { first + 2 * count ≤ word_count }
        ensures { result ≡ true → (k : ℕ) → k < count → word self.now (first + k) ≡ word self.now (first + count + k) }
    {
        let second = first + count;
        self.words[first..second] == self.words[second..second + count]
    }

    // Whether wait `w` does not matter to the 2^(w + 1) settings from `from` on.
    fn repeats(&self, w: usize, from: usize) -> bool
        requires few { w < wait_count }
        requires room { from + 2 ^ suc w ≤ settings }
        requires start { from % 2 ^ suc w ≡ 0 }
        ensures { result ≡ true → (k : ℕ) → k < 2 ^ w → means self.now (from + k) ≡ means self.now (from + 2 ^ w + k) }
    {
        if w < INNER_WAITS {
            bits_repeat(self.words[from / 64] >> (from % 64), 1 << w)
        } else {
            self.words_repeat(from / 64, 1 << (w - INNER_WAITS))
        }
    }

    // The highest of the waits below `waits` that matters to the 2^`waits` settings from `from` on, if any does.
    fn highest(&self, waits: usize, from: usize) -> Option<usize>
        requires few { waits ≤ wait_count }
        requires room { from + 2 ^ waits ≤ settings }
        requires start { from % 2 ^ waits ≡ 0 }
        ensures none { result ≡ None → (cs : List Condition) → partly cs self.now 0 from ≡ partly cs self.now waits from }
        ensures some { IfSome result (λ w. (w < waits) × ((from + 2 ^ suc w ≤ settings) × (from % 2 ^ suc w ≡ 0))) }
        ensures same { IfSome result (λ w. (cs : List Condition) → partly cs self.now (suc w) from ≡ partly cs self.now waits from) }
    {
        for w in (0..waits).rev() {
            if !self.repeats(w, from) {
                return Some(w);
            }
        }
        None
    }

    // `high` where this condition is true, and `low` where it is false.
    fn choose(&self, high: &Condition, low: &Condition) -> Condition
        ensures { result ≡ openly.either (openly.both self.now high.now) (openly.both (openly.not self.now) low.now) }
    {
        Condition {
            words: array::from_fn(|i| {
                (self.words[i] & high.words[i]) | (!self.words[i] & low.words[i])
            }),
        }
    }

    // The condition at the 2^`waits` settings from `from` on, with each wait below `waits` replaced.
    fn carried(&self, by: &[Condition], waits: usize, from: usize) -> Condition
        requires few { waits ≤ wait_count }
        requires room { from + 2 ^ waits ≤ settings }
        requires start { from % 2 ^ waits ≡ 0 }
        requires given { waits ≤ length by.now }
        ensures { result ≡ partly by.now self.now waits from }
    {
        let Some(w) = self.highest(waits, from) else {
            return Condition::from(self.value_at(from));
        };
        let low = self.carried(by, w, from);
        let high = self.carried(by, w, from + (1 << w));
        by[w].choose(&high, &low)
    }

    // The condition with all waits replaced together: wait w by `by[w]`, and by never where there is none.
    pub fn replaced(&self, by: &[Condition]) -> Condition
        ensures { result ≡ replaced by.now self.now }
    {
        self.carried(by, by.len().min(WAITS), 0)
    }
}

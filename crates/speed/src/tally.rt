// Counts of lines by their kind.

// How many lines say true, false, and joined.
#[derive(Clone, Copy)]
pub(crate) struct Tally {
    pub(crate) trues: u64,
    pub(crate) falses: u64,
    pub(crate) joins: u64,
}

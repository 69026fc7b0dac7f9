// The logic of rules: what a verdict says, and the theorems that every verdict rests on.
#![tactic(auto)]

mod refusal;
mod theorems;
mod verdict;

pub use refusal::DrawRefusal;
pub use theorems::{
    conditions_are_carried, conditions_are_few, conditions_are_sound, formulas_are_built,
    histories_are_lawful, logic_is_lawful, past_values_tell_truth, runs_are_lawful,
    since_is_its_witness_form, verdicts_are_sound, worked_runs_follow, wrong_watches_fail,
};
pub use verdict::{HeldPoint, Line, Point};

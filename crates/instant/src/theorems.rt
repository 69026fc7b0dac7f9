// The theorem over runs of the instant watch, in the contract of a function.
ghost use Rattle.instant.specs.Runs.{RunsWitnessed};

use truth::Truth;

// In every kind of truth, over every run of steps with the shelf handed on unaltered, each record's value at each point is the
// one that the published logic gives it: a since is the either, over all fitting points, of right there both left at each
// later point. It follows from the laws of the kind alone.
pub fn runs_are_witnessed<T: Truth>()
    ensures { RunsWitnessed T.Truth.ops }
{}

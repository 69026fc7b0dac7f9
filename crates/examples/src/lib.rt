// Examples that go across crates, which are proved and then run as tests.
#![tactic(auto)]

#[cfg(test)]
mod feeds;
#[cfg(test)]
mod prints;

// The least height at which each pyramid of a question is nearest.
#![tactic(auto)]

pub mod heights;
mod lanes;

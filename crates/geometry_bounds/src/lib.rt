// The bound of a span for a question.
#![tactic(auto)]

pub mod bounds;

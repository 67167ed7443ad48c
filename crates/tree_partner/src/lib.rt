// The partner that a page left with too few items takes, and what is to become of the two.
#![tactic(auto)]

mod partner;

pub use partner::{left_count, left_of};

// Deletion from the tree. Each function is total, whatever the index holds.
#![tactic(auto)]

mod deletion;

pub use deletion::delete;

// Insertion into the tree. Each function is total, whatever the index holds.
#![tactic(auto)]

mod insertion;
mod roots;

pub use roots::insert;

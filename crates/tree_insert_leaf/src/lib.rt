// Insertion into a leaf, and items put to a page of either kind. Each function is total, whatever the index holds.
#![tactic(auto)]

mod leaves;
mod put;

pub use leaves::insert_leaf;
pub use put::put_items;

// Two neighbours rebalanced. Each function is total, whatever the index holds.
#![tactic(auto)]

mod rebalancing;

pub use rebalancing::rebalance_pages;

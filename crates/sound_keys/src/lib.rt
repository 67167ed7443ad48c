// A page judged by itself, for the check: are its records in range, and do its keys ascend?
#![tactic(auto)]

mod keys;
mod leads;

pub use keys::{item_count, judge_page, rank};

// The first and the last key of a page, as numbers; 0 where it has no keys.
#[derive(Clone, Copy, Debug, PartialEq, Eq)]
pub struct Ends {
    pub first: u64,
    pub last: u64,
}

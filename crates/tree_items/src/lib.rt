// The two kinds of pages, and items laid out one behind the other in an array of slots, up to one more than a page holds.
#![tactic(auto)]

mod kinds;
mod layout;

pub use kinds::{Inners, Kind, Leaves};
pub use layout::{splice, splice_grown};
use pagestore::{MAX_ITEMS, MIN_ITEMS};

// So many, one more than a page holds, and of a page that would hold them, those that stay when it is split.
pub const MAX_GATHERED: usize = MAX_ITEMS + 1;

pub const KEPT_ITEMS: usize = MIN_ITEMS + 1;

// The tree over the page store: insert, delete, find, the number of leaves. Nothing is assumed of what the index holds.
#![tactic(auto)]

mod lookup;

pub use lookup::{find, leaf_count};
pub use tree_delete::delete;
pub use tree_insert::insert;
pub use tree_keyed::holds;
pub use tree_wanted::pages_wanted;

// What insertion, deletion and lookup share: the definitions of the tree's acts on bytes, keys of records, entries of pages.
#![tactic(auto)]

ghost use Rattle.std.specs.Prelude.{◌≡◌};
ghost use Rattle.tree_model.specs.Trees.{rank_of};

use pagestore::{Entry, Record};

mod entries;
mod keys;
mod places;

pub use entries::{child_at, child_of, choose_at, inner_entry, leaf_entry};
pub use keys::{filled_at, record_rank};
pub use places::ident_place;

// A record with its rank among the records of an index of so many features.
#[derive(Clone, Copy)]
pub struct Ranked {
    pub stored: Record,
    pub features: u8,
    pub rank: u64,
    ghost ranked: { rank ≡ rank_of features stored },
}

impl Ranked {
    pub fn new(stored: Record, features: u8) -> Ranked
        ensures { (result.stored ≡ stored) × (result.features ≡ features) }
    {
        Ranked {
            stored,
            features,
            rank: record_rank(stored, features),
        }
    }
}

// What the items of a page or two have become: one page, or two neighbours.
#[derive(Clone, Copy)]
pub enum Grown {
    One(Entry),
    Two(Entry, Entry),
}

// What a deletion has left of a page: its entry, and how many items it has.
#[derive(Clone, Copy)]
pub struct Left {
    pub entry: Entry,
    pub count: usize,
}

// Insertion of a record into a leaf.
ghost use Rattle.std.specs.Prelude.{◌≡◌, ◌≤◌, ◌<◌, length};
ghost use Rattle.lists.specs.Leading.{leading};
ghost use Rattle.pagestore.specs.Store.{records_in, set_leaf};
ghost use Rattle.tree_model.specs.Inserting.{insert_record, rank_below};
ghost use Rattle.tree_core.specs.Entries.{leaf_entry};
ghost use Rattle.tree_core.specs.Insertion.{put, insert_at};
ghost use Rattle.tree_core.specs.CodeTerms.{RewriteDone};

use crate::put::put_items;
use pagestore::{Leaf, MAX_ITEMS, Record, filled, leaf_at, set_leaf};
use tree_core::{Grown, Ranked, leaf_entry, record_rank};
use tree_items::{Leaves, MAX_GATHERED, splice};

// How many records come before a rank: the place of a record of that rank.
fn place_of(records: &[Record], rank: u64, d: u8) -> usize
    ensures { (result ≡ leading (rank_below d rank) records.now) × (result ≤ length records.now) }
{
    for (i, x) in records.iter().enumerate() {
        if rank <= record_rank(*x, d) {
            return i;
        }
    }
    records.len()
}

// A leaf with room for one record more, which is to stand at a place.
fn fill_leaf(index: &mut [u8], page: u32, leaf: Leaf, i: usize, x: Ranked) -> Grown
    requires { (leaf.count < 16) × (i ≡ leading (rank_below x.features x.rank) (records_in leaf)) }
    ensures { RewriteDone (put set_leaf (leaf_entry x.features) index.old page (insert_record x.features x.stored (records_in leaf)))
        index.new result }
{
    let next = pagestore::insert_record(leaf, i, x.stored);
    set_leaf(index, page, next);
    Grown::One(leaf_entry(page, next, x.features))
}

pub fn insert_leaf(index: &mut [u8], page: u32, x: Ranked) -> Grown
    ensures { RewriteDone (insert_at x.features 0 index.old page x.stored) index.new result }
{
    let leaf = leaf_at(index, page);
    let records = &leaf.records[..filled(leaf.count)];
    let i = place_of(records, x.rank, x.features);
    if leaf.count < MAX_ITEMS {
        return fill_leaf(index, page, leaf, i, x);
    }
    let mut all = [x.stored; MAX_GATHERED];
    let n = splice(&mut all, records, i, i, &[x.stored]);
    let kind = Leaves {
        features: x.features,
    };
    put_items(kind, index, page, &all[..n])
}

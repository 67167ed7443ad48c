// Insertion into an index.
ghost use Rattle.std.specs.Prelude.{◌≡◌};
ghost use Rattle.tree_core.specs.Insertion.{grow_root, add_to_total, insert_into};
ghost use Rattle.tree_core.specs.CodeTerms.{grown_list};

use crate::insertion::insert_at;
use pagestore::{
    Record, features_of, root_level, root_page, set_root_level, set_root_page, set_total_records,
    total_records,
};
use pagestore_free::take_page;
use tree_core::{Grown, Ranked};
use tree_items::{Inners, Kind};

// A split root gets a new root above the two pages that it has become.
fn grow_root(index: &mut [u8], level: u8, grown: Grown)
    ensures { index.new ≡ grow_root level index.old (grown_list grown) }
{
    if let Grown::Two(e, f) = grown {
        let level = level.wrapping_add(1);
        let page = take_page(index);
        Inners { level }.write(index, page, &[e, f]);
        set_root_page(index, page);
        set_root_level(index, level);
    }
}

fn add_to_total(index: &mut [u8])
    ensures { index.new ≡ add_to_total index.old }
{
    let n = total_records(index).wrapping_add(1);
    set_total_records(index, n);
}

// Inserts a record. It takes the pages that `pages_wanted` says, and they must be there.
pub fn insert(index: &mut [u8], x: Record)
    ensures { index.new ≡ insert_into index.old x }
{
    let x = Ranked::new(x, features_of(index));
    let level = root_level(index);
    let root = root_page(index);
    let grown = insert_at(index, root, level, x);
    grow_root(index, level, grown);
    add_to_total(index);
}

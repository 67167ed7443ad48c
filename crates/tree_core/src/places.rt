// The place of a record in its leaf.
ghost use Rattle.std.specs.Prelude.{◌≡◌, ◌<◌, length, MatchOption};
ghost use Rattle.lists.specs.Leading.{leading};
ghost use Rattle.pagestore.specs.Store.{leaf_at, records_in};
ghost use Rattle.tree_model.specs.Deleting.{other_ident};

use crate::keys::filled_at;
use pagestore::ident_at;

// The place of the first record of an identifier in the leaf at a page.
pub fn ident_place(index: &[u8], page: u32, id: u32) -> Option<usize>
    ensures { MatchOption result
        (leading (other_ident id) (records_in (leaf_at index.now page)) ≡ length (records_in (leaf_at index.now page)))
        (λ i. (i ≡ leading (other_ident id) (records_in (leaf_at index.now page)))
        × (i < length (records_in (leaf_at index.now page))) × (i < 16)) }
{
    for i in 0..filled_at(index, page) {
        if ident_at(index, page, i) == id {
            return Some(i);
        }
    }
    None
}

// Lookup: the record of an identifier, and the number of leaves.
ghost use Rattle.std.specs.Prelude.{◌≡◌, ◌^◌, ◌<◌, ◌≤◌, MatchOption};
ghost use Rattle.lists.specs.Ascending.{head_or};
ghost use Rattle.pagestore.specs.Store.{leaf_at, records_in};
ghost use Rattle.tree_core.specs.Lookup.{blank, with_ident, find_under, find_in, leaf_count};

use pagestore::{Record, entry_at, record_at, root_level, root_page};
use tree_core::{filled_at, ident_place};

// The record of an identifier in the leaf at a page: only identifiers are read, and the record where it is found.
fn find_in_leaf(index: &[u8], page: u32, id: u32) -> Option<Record>
    ensures { MatchOption result (head_or blank (with_ident id (records_in (leaf_at index.now page))) ≡ blank)
        (λ x. (x ≡ head_or blank (with_ident id (records_in (leaf_at index.now page)))) × (x.id ≡ id)) }
{
    let i = ident_place(index, page, id)?;
    Some(record_at(index, page, i))
}

// The record of an identifier below a page; the level falls at each call.
fn find_under(index: &[u8], page: u32, level: u8, id: u32) -> Option<Record>
    requires { 0 < id }
    ensures { MatchOption result (find_under level index.now page id ≡ blank)
        (λ x. (x ≡ find_under level index.now page id) × (x.id ≡ id)) }
{
    if level == 0 {
        return find_in_leaf(index, page, id);
    }
    for i in 0..filled_at(index, page) {
        let e = entry_at(index, page, i);
        if let Some(x) = find_under(index, e.child, level - 1, id) {
            return Some(x);
        }
    }
    None
}

// The record of an identifier, or none if it is not live.
pub fn find(index: &[u8], id: u32) -> Option<Record>
    requires { 0 < id }
    ensures { MatchOption result (find_in index.now id ≡ blank) (λ x. (x ≡ find_in index.now id) × (x.id ≡ id)) }
{
    find_under(index, root_page(index), root_level(index), id)
}

// How many leaves lie below a page of a level. No leaf page is read.
pub fn leaf_count(index: &[u8], level: usize, page: u32) -> usize
    requires { level ≤ 4 }
    ensures { (result ≡ leaf_count level index.now page) × (result ≤ 16 ^ level) }
{
    if level == 0 {
        return 1;
    }
    let n = filled_at(index, page);
    if level == 1 {
        return n;
    }
    let mut sum = 0;
    for i in 0..n {
        sum += leaf_count(index, level - 1, entry_at(index, page, i).child);
    }
    sum
}

// Entries of inner pages: the one to follow, and the one that a page is given.
ghost use Rattle.std.specs.Prelude.{◌≡◌, [], ◌≤◌};
ghost use Rattle.pagestore.specs.Store.{inner_at, records_in, entries_in};
ghost use Rattle.tree_model.specs.Inserting.{choose};
ghost use Rattle.tree_core.specs.Entries.{child_at, leaf_entry, inner_entry};

use crate::keys::{filled_at, record_key};
use geometry::keys::key_number;
use geometry::{Height, Key, Pyramid};
use pagestore::{Entry, Inner, Leaf, entry_at, filled};

// In the inner page at a page number, the place of the last child whose first key is not above the rank, else of the first child.
pub fn choose_at(index: &[u8], page: u32, rank: u64) -> usize
    ensures { (result ≡ choose rank (entries_in (inner_at index.now page)))
        × (result ≤ 15) × (result ≤ (inner_at index.now page).count) }
{
    let n = filled_at(index, page);
    for i in 1..n {
        let e = entry_at(index, page, i);
        if rank < key_number(e.first) {
            return i - 1;
        }
    }
    n.saturating_sub(1)
}

// The child at a place of that page; no page where there is none.
// Kept: 0 in this and the next function, since the number 0 is no page's (docs/LAYOUT.md), and what reads a page takes it so: with an option
// each caller would say `unwrap_or(0)`.
pub fn child_of(index: &[u8], page: u32, i: usize) -> u32
    ensures { result ≡ child_at (entries_in (inner_at index.now page)) i }
{
    if i < filled_at(index, page) {
        entry_at(index, page, i).child
    } else {
        0
    }
}

// The same of a page held by value.
pub fn child_at(inner: Inner, i: usize) -> u32
    ensures { result ≡ child_at (entries_in inner) i }
{
    if i < filled(inner.count) {
        inner.entries[i].child
    } else {
        0
    }
}

// The entry of a page with no items.
fn bare_entry(page: u32) -> Entry
    ensures { result ≡ inner_entry page [] }
{
    let key = Key {
        pyramid: Pyramid(0),
        height: Height(0),
        id: 0,
    };
    Entry {
        child: page,
        first: key,
        last: key,
    }
}

// The entry of a leaf.
pub fn leaf_entry(page: u32, leaf: Leaf, d: u8) -> Entry
    ensures { result ≡ leaf_entry d page (records_in leaf) }
{
    let n = filled(leaf.count);
    if n == 0 {
        return bare_entry(page);
    }
    Entry {
        child: page,
        first: record_key(leaf.records[0], d),
        last: record_key(leaf.records[n - 1], d),
    }
}

// The entry of an inner page.
pub fn inner_entry(page: u32, inner: Inner) -> Entry
    ensures { result ≡ inner_entry page (entries_in inner) }
{
    let n = filled(inner.count);
    if n == 0 {
        return bare_entry(page);
    }
    let a = inner.entries[0];
    let z = inner.entries[n - 1];
    let last = z.last;
    Entry {
        child: page,
        first: a.first,
        last,
    }
}

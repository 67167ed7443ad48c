// Whether a record stands where its key leads: one page of each level is read.
ghost use Rattle.std.specs.Prelude.{◌≡◌};
ghost use Rattle.pagestore.specs.Store.{leaf_at, records_in};
ghost use Rattle.tree_core.specs.Keyed.{leaf_for, same_point, held_among, holds_at};

use pagestore::{Record, features_of, filled, record_at, root_level, root_page};
use tree_core::{child_of, choose_at, ident_place, record_rank};

// The leaf to which a rank leads from a page; the level falls at each call.
fn leaf_for(index: &[u8], page: u32, level: u8, rank: u64) -> u32
    ensures { result ≡ leaf_for level index.now page rank }
{
    if level == 0 {
        return page;
    }
    let i = choose_at(index, page, rank);
    let child = child_of(index, page, i);
    leaf_for(index, child, level - 1, rank)
}

// Whether two records have the same point: their first d slots.
fn same_point(x: Record, y: Record, d: u8) -> bool
    ensures { result ≡ same_point d x y }
{
    let n = filled(d as usize);
    let xs = x.coords;
    let ys = y.coords;
    xs[..n] == ys[..n]
}

// Whether the leaf at a page has, as its first record of an identifier, one with the point of the record asked for.
fn held_among(index: &[u8], page: u32, x: Record, d: u8) -> bool
    ensures { result ≡ held_among d x (records_in (leaf_at index.now page)) }
{
    match ident_place(index, page, x.id) {
        Some(i) => same_point(record_at(index, page, i), x, d),
        None => false,
    }
}

// Whether the index holds a record, by identifier and point, in the leaf to which its key leads.
pub fn holds(index: &[u8], x: Record) -> bool
    ensures { result ≡ holds_at index.now x }
{
    let d = features_of(index);
    let level = root_level(index);
    let root = root_page(index);
    let rank = record_rank(x, d);
    let page = leaf_for(index, root, level, rank);
    held_among(index, page, x, d)
}

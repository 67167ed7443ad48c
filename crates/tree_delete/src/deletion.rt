// Deletion: a record out of a leaf, and what the pages above it become.
ghost use Rattle.std.specs.Prelude.{◌≡◌, ◌-◌, ◌<◌, ◌≤◌, set};
ghost use Rattle.pagestore.specs.Store.{entries_in};
ghost use Rattle.tree_core.specs.Deletion.{leave, fix_underflow, delete_at, collapse_root, take_from_total, delete_from, rebalanced_below};
ghost use Rattle.tree_core.specs.CodeTerms.{LeftDone, deleted_of};

use pagestore::{
    Entry, Inner, MAX_ITEMS, MIN_ITEMS, Record, features_of, filled, inner_at, leaf_at, root_level,
    root_page, set_inner, set_root_level, set_root_page, set_total_records, total_records,
};
use pagestore_free::free_page;
use pagestore_page::no_entry;
use tree_core::{Left, Ranked, child_at, child_of, choose_at, ident_place, inner_entry};
use tree_items::{Inners, Kind, Leaves, splice, splice_grown};
use tree_partner::left_of;
use tree_rebalance::rebalance_pages;

fn delete_leaf(index: &mut [u8], page: u32, x: Record, d: u8) -> Left
    ensures { LeftDone (delete_at d 0 index.old page x) index.new result }
{
    let leaf = leaf_at(index, page);
    let records = &leaf.records[..filled(leaf.count)];
    let i = ident_place(index, page, x.id).unwrap_or(records.len());
    let mut kept = leaf.records;
    let count = splice(&mut kept, records, i, i + 1, &[]);
    let kind = Leaves { features: d };
    let entry = kind.write(index, page, &kept[..count]);
    Left { entry, count }
}

// The page left with its entries.
fn leave_page(index: &mut [u8], page: u32, inner: Inner) -> Left
    ensures { LeftDone (leave inner.level index.old page (entries_in inner)) index.new result }
{
    set_inner(index, page, inner);
    Left {
        entry: inner_entry(page, inner),
        count: filled(inner.count),
    }
}

fn with_entry(inner: Inner, level: u8, i: usize, e: Entry) -> Inner
    requires { i ≤ 15 }
    ensures { (result.level ≡ level) × (entries_in result ≡ set (entries_in inner) i e) }
{
    let mut entries = inner.entries;
    entries[i] = e;
    Inner {
        level,
        count: inner.count,
        entries,
    }
}

// The child at place i, left with too few items, takes its partner; the two entries give way to those of the pages that have been rebalanced.
fn rebalance(index: &mut [u8], page: u32, inner: Inner, i: usize, below: u8, d: u8) -> Left
    requires { i ≤ 15 }
    ensures { LeftDone (rebalanced_below d below inner.level index.old page (entries_in inner) i)
        index.new result }
{
    let entries = &inner.entries[..filled(inner.count)];
    let j = left_of(i, entries.len());
    let p = child_at(inner, j);
    let q = child_at(inner, j + 1);
    let pair = rebalance_pages(index, p, q, below, d);
    let mut all = [no_entry(); MAX_ITEMS];
    let count = splice_grown(&mut all, entries, j, j + 2, pair);
    let kind = Inners { level: inner.level };
    let entry = kind.write(index, page, &all[..count]);
    Left { entry, count }
}

// The page after a deletion below its child at place i.
fn fix_underflow(
    index: &mut [u8],
    page: u32,
    level: u8,
    inner: Inner,
    i: usize,
    left: Left,
    d: u8,
) -> Left
    requires { (i ≤ 15) × (0 < level) }
    ensures { LeftDone (fix_underflow d (level - 1) page (entries_in inner) i (deleted_of index.old left))
        index.new result }
{
    let next = with_entry(inner, level, i, left.entry);
    if MIN_ITEMS <= left.count {
        return leave_page(index, page, next);
    }
    rebalance(index, page, next, i, level - 1, d)
}

// Deletes a record below a page; the level falls at each call.
fn delete_at(index: &mut [u8], page: u32, level: u8, x: Ranked) -> Left
    ensures { LeftDone (delete_at x.features level index.old page x.stored) index.new result }
{
    if level == 0 {
        return delete_leaf(index, page, x.stored, x.features);
    }
    let inner = inner_at(index, page);
    let i = choose_at(index, page, x.rank);
    let child = child_of(index, page, i);
    let left = delete_at(index, child, level - 1, x);
    fix_underflow(index, page, level, inner, i, left, x.features)
}

// An inner root with one child gives way to it.
fn collapse_root(index: &mut [u8], level: u8, page: u32, n: usize)
    ensures { index.new ≡ collapse_root level index.old page n }
{
    if 0 < level && n == 1 {
        let child = child_of(index, page, 0);
        set_root_page(index, child);
        set_root_level(index, level - 1);
        free_page(index, page);
    }
}

fn take_from_total(index: &mut [u8])
    ensures { index.new ≡ take_from_total index.old }
{
    let n = total_records(index).saturating_sub(1);
    set_total_records(index, n);
}

// Deletes a record.
pub fn delete(index: &mut [u8], x: Record)
    ensures { index.new ≡ delete_from index.old x }
{
    let x = Ranked::new(x, features_of(index));
    let level = root_level(index);
    let root = root_page(index);
    let left = delete_at(index, root, level, x);
    collapse_root(index, level, root, left.count);
    take_from_total(index);
}

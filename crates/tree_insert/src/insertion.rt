// Insertion below a page: the leaf, and what the pages above it become.
ghost use Rattle.std.specs.Prelude.{◌≡◌, [], ◌∷◌, ◌≤◌};
ghost use Rattle.pagestore.specs.Store.{entries_in};
ghost use Rattle.tree_model.specs.Inserting.{replaced};
ghost use Rattle.tree_core.specs.Entries.{inner_entry};
ghost use Rattle.tree_core.specs.Held.{Held};
ghost use Rattle.tree_core.specs.Insertion.{put, write_inner, insert_at};
ghost use Rattle.tree_core.specs.CodeTerms.{grown_list, RewriteDone};

use pagestore::{Entry, Inner, filled, inner_at, set_inner};
use pagestore_page::no_entry;
use tree_core::{Grown, Ranked, child_of, choose_at, inner_entry};
use tree_insert_leaf::{insert_leaf, put_items};
use tree_items::{Inners, MAX_GATHERED, splice_grown};

// A page with the entry at one place anew.
fn renewed(inner: Inner, level: u8, i: usize, e: Entry) -> Inner
    requires { (i ≤ 15) × (i ≤ inner.count) }
    ensures { (result.level ≡ level) × Held result.count result.entries (replaced i (e ∷ []) (entries_in inner)) }
{
    let mut entries = inner.entries;
    entries[i] = e;
    Inner {
        level,
        count: filled(inner.count).max(i + 1),
        entries,
    }
}

// A page whose child has not split.
fn put_entry(index: &mut [u8], page: u32, level: u8, inner: Inner, i: usize, e: Entry) -> Grown
    requires { (i ≤ 15) × (i ≤ inner.count) }
    ensures { RewriteDone (put (write_inner level) inner_entry index.old page (replaced i (e ∷ []) (entries_in inner)))
        index.new result }
{
    let next = renewed(inner, level, i, e);
    set_inner(index, page, next);
    Grown::One(inner_entry(page, next))
}

// A page, with what its child has become in the child's place.
fn put_inner(index: &mut [u8], page: u32, level: u8, inner: Inner, i: usize, grown: Grown) -> Grown
    requires { (i ≤ 15) × (i ≤ inner.count) }
    ensures { RewriteDone (put (write_inner level) inner_entry index.old page
        (replaced i (grown_list grown) (entries_in inner))) index.new result }
{
    if let Grown::One(e) = grown {
        return put_entry(index, page, level, inner, i, e);
    }
    let entries = &inner.entries[..filled(inner.count)];
    let mut all = [no_entry(); MAX_GATHERED];
    let n = splice_grown(&mut all, entries, i, i + 1, grown);
    put_items(Inners { level }, index, page, &all[..n])
}

// Inserts a record below a page; the level falls at each call.
pub fn insert_at(index: &mut [u8], page: u32, level: u8, x: Ranked) -> Grown
    ensures { RewriteDone (insert_at x.features level index.old page x.stored) index.new result }
{
    if level == 0 {
        return insert_leaf(index, page, x);
    }
    let inner = inner_at(index, page);
    let i = choose_at(index, page, x.rank);
    let child = child_of(index, page, i);
    let grown = insert_at(index, child, level - 1, x);
    put_inner(index, page, level, inner, i, grown)
}

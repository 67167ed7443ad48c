// The visit of the followed pages in turn: each is judged by itself, its first and last key are kept, and the identifiers of a leaf are
// collected, each with its page.
#![tactic(auto)]

ghost use Rattle.std.specs.Prelude.{◌≡◌, map, ◌+◌, ◌<◌, ◌≤◌, length};
ghost use Rattle.pagestore.specs.Store.{view_of, leaf_at, records_in};
ghost use Rattle.tree_model.specs.Trees.{ident_of};
ghost use Rattle.sound_links.specs.Marks.{MarksAre};
ghost use Rattle.sound_visit.specs.Collect.{Joined, Gathered, Visited};
ghost use Rattle.pagestore_page.specs.Layout.{max_items};

use pagestore::{ident_at, page_count};
use sound_faults::Fault;
use sound_keys::{Ends, item_count};
use sound_pages::keep_page;

// Puts the identifiers of a leaf behind the first n of `ids`, and its page as often into `holders`: how many there are then.
// Kept: identifiers and their pages in two lent arrays, and how many beside them. A pair would take 8 bytes in place of 6 (fixed memory), and
// `lowest_repeat`, which names the promise, takes two lists.
fn collect_leaf(
    index: &[u8],
    page: u32,
    count: usize,
    holder: u16,
    ids: &mut [u32],
    holders: &mut [u16],
    n: usize,
) -> usize
    requires { (count ≡ (leaf_at index.now page).count) × (count ≤ max_items)
        × (n + count ≤ length ids.old) × (n + count ≤ length holders.old) }
    ensures { Joined (map ident_of (records_in (leaf_at index.now page)))
        (map (λ x. holder) (records_in (leaf_at index.now page)))
        n ids.old holders.old result ids.new holders.new }
{
    for i in 0..count {
        let at = n + i;
        ids[at] = ident_at(index, page, i);
        holders[at] = holder;
    }
    n + count
}

// The same of page p, where it is a followed leaf. Where there is no room, the identifiers are only counted.
fn collect_page(
    index: &[u8],
    p: u32,
    marks: &[u16],
    ids: &mut [u32],
    holders: &mut [u16],
    n: usize,
) -> usize
    requires { (p < (view_of index.now).count) × MarksAre (view_of index.now) marks.now × (length holders.old ≡ length ids.old)
        × Gathered (view_of index.now) marks.now p n ids.old holders.old }
    ensures { Gathered (view_of index.now) marks.now (p + 1) result ids.new holders.new }
{
    let at = p as usize;
    if marks[at] != 1 {
        return n;
    }
    let count = item_count(index, p);
    if ids.len() < n + count {
        return n + count;
    }
    let holder = p as u16;
    collect_leaf(index, p, count, holder, ids, holders, n)
}

// The whole visit, up to a page that is not fine by itself: the number of records.
pub fn visit(
    index: &[u8],
    d: usize,
    marks: &[u16],
    ends: &mut [Ends],
    ids: &mut [u32],
    holders: &mut [u16],
) -> Result<usize, Fault>
    requires { (1 ≤ (view_of index.now).count) × (d ≡ (view_of index.now).d) × MarksAre (view_of index.now) marks.now
        × ((view_of index.now).count ≤ length ends.old)
        × (length holders.old ≡ length ids.old) }
    ensures { Visited (view_of index.now) marks.now ends.new
        ids.new holders.new result }
{
    let mut n = 0;
    for p in 1..page_count(index) {
        keep_page(index, p, d, marks, ends)?;
        n = collect_page(index, p, marks, ids, holders, n);
    }
    Ok(n)
}

// The keys of records and entries, and a page judged by itself.
ghost use Rattle.std.specs.Prelude.{◌≡◌, true, ◌<◌, ◌≤◌, ◌^◌, eqb, length};
ghost use Rattle.lists.specs.Basics.{if};
ghost use Rattle.geometry.specs.Keys.{key_number};
ghost use Rattle.pagestore_page.specs.Layout.{leaf_of, max_items, page_size};
ghost use Rattle.pagestore.specs.Store.{records_in, entries_in, fill_of, page_at, leaf_at, inner_at, in_range, view_of};
ghost use Rattle.tree_model.specs.Sound.{max_stage};
ghost use Rattle.sound_faults.specs.Faults.{Reached};
ghost use Rattle.lists.specs.Judges.{Decides};
ghost use Rattle.geometry.specs.Numbers.{max_features, max_coordinate};
ghost use Rattle.sound_keys.specs.Judged.{LeafJudged, InnerJudged, PageJudged};
ghost use Rattle.sound_keys.specs.Leads.{Leads};

use crate::Ends;
use crate::leads::{lead_columns, lead_key};
use geometry::keys::key_number;
use geometry::{Key, MAX_COORDINATE};
use pagestore::{MAX_STAGE, count_at, entry_at, lanes, level_at, read_stage};
use pagestore_page::{MAX_ITEMS, PAGE_SIZE};

// A key as a number; there is room for one more.
pub fn rank(k: Key) -> u64
    ensures { (result ≡ key_number k) × (result < 2 ^ 56) }
{
    key_number(k)
}

// Are the identifier, the stage and the coordinates of a record with this key in range? The height is the greatest magnitude.
fn record_fine(k: Key, stage: u8) -> bool
    ensures { Decides ((1 ≤ k.id) × (stage ≤ max_stage) × (k.height.0 ≤ max_coordinate)) result }
{
    if k.id == 0 {
        return false;
    }
    if MAX_STAGE < stage {
        return false;
    }
    k.height.0 <= MAX_COORDINATE
}

// The count of a page, as stored.
pub fn item_count(index: &[u8], page: u32) -> usize
    ensures { (result ≡ (leaf_at index.now page).count) × (result ≡ (inner_at index.now page).count)
        × (result ≡ fill_of (page_at index.now page)) }
{
    usize::from(count_at(index, page))
}

// The first key of a page, with item i, whose key is `own`. The test is on i, so that the compiler takes a loop's first turn apart and drops it from
// the others.
fn first_of(i: usize, first: u64, own: u64) -> u64
    ensures { result ≡ if (eqb i 0) own first }
{
    if i == 0 { own } else { first }
}

// Are the first n records in range, and do their keys ascend? `tops` holds their greatest leads.
fn judge_records(page: &[u8], n: usize, d: usize, tops: &[u16]) -> Option<Ends>
    requires { (length page.now ≡ page_size) × (n ≡ (leaf_of page.now).count) × (n ≤ max_items) × (1 ≤ d) × (d ≤ max_features)
        × Leads (leaf_of page.now) d n tops.now }
    ensures { LeafJudged d (records_in (leaf_of page.now)) result }
{
    let mut first: u64 = 0;
    let mut next: u64 = 0;
    for i in 0..n {
        let key = lead_key(page, tops[i], i, d);
        if !record_fine(key, read_stage(page, i)) {
            return None;
        }
        let own = rank(key);
        if own < next {
            return None;
        }
        first = first_of(i, first, own);
        next = own + 1;
    }
    Some(Ends {
        first: first,
        last: next.saturating_sub(1),
    })
}

// The records of a leaf, read from its page.
fn judge_part(page: &[u8], n: usize, d: usize) -> Option<Ends>
    requires { (length page.now ≡ page_size) × (n ≡ (leaf_of page.now).count) × (n ≤ max_items) × (1 ≤ d) × (d ≤ max_features) }
    ensures { LeafJudged d (records_in (leaf_of page.now)) result }
{
    let mut tops = [0u16; MAX_ITEMS];
    lead_columns(page, d, lanes(n), &mut tops);
    judge_records(page, n, d, &tops)
}

// The same of the leaf at a page in range.
fn judge_leaf(index: &[u8], page: u32, n: usize, d: usize) -> Option<Ends>
    requires { (n ≡ (leaf_at index.now page).count) × (n ≤ max_items) × (1 ≤ d) × (d ≤ max_features) × (in_range index.now page ≡ true) }
    ensures { LeafJudged d (records_in (leaf_at index.now page)) result }
{
    let at = page as usize * PAGE_SIZE;
    let end = at + PAGE_SIZE;
    judge_part(&index[at..end], n, d)
}

// Do the keys of an inner page ascend, each entry's first and last in turn?
fn judge_inner(index: &[u8], page: u32, n: usize) -> Option<Ends>
    requires { (n ≡ (inner_at index.now page).count) × (n ≤ max_items) }
    ensures { InnerJudged (entries_in (inner_at index.now page)) result }
{
    let mut first: u64 = 0;
    let mut next: u64 = 0;
    for i in 0..n {
        let e = entry_at(index, page, i);
        let low = rank(e.first);
        let high = rank(e.last);
        if low < next || high <= low {
            return None;
        }
        first = first_of(i, first, low);
        next = high + 1;
    }
    Some(Ends {
        first: first,
        last: next.saturating_sub(1),
    })
}

// The followed page p, by itself.
pub fn judge_page(index: &[u8], p: u32, d: usize) -> Option<Ends>
    requires { Reached (view_of index.now) p × (d ≡ (view_of index.now).d) }
    ensures { PageJudged (view_of index.now) p result }
{
    let n = item_count(index, p);
    if level_at(index, p) == 0 {
        judge_leaf(index, p, n, d)
    } else {
        judge_inner(index, p, n)
    }
}

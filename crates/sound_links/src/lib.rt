// Links between pages, for the check: the header, the freed chain, the root, and the pages that are followed from it.
#![tactic(auto)]

ghost use Rattle.std.specs.Prelude.{◌≤◌};
ghost use Rattle.pagestore.specs.Store.{view_of, page_at};
ghost use Rattle.sound_faults.specs.Faults.{RootFill, FailsAt};
ghost use Rattle.sound_faults.specs.Linked.{HeaderFine};
ghost use Rattle.lists.specs.Judges.{Decides, Judges};
ghost use Rattle.sound_links.specs.Marks.{Clear, Follows, Ready, Grown, FreedOk};

use geometry::MAX_FEATURES;
use pagestore::{
    count_at, entry_at, features_of, freed_head, fresh_page, in_range, index_size, level_at,
    link_at, page_count, root_level, root_page,
};
use pagestore_page::{MAX_ITEMS, MIN_ITEMS, PAGE_SIZE};
use sound_keys::item_count;

// The most features, and the records or entries of a page, as their bytes say them.
const FEATURES: u8 = MAX_FEATURES as u8;

const LEAST: u8 = MIN_ITEMS as u8;

const MOST: u8 = MAX_ITEMS as u8;

// Do the header's fields have no fault, each by itself?
pub fn header_fine(index: &[u8]) -> bool
    ensures { Judges (HeaderFine (view_of index.now)) (FailsAt (view_of index.now) 0) result }
{
    if index_size(index) as usize * PAGE_SIZE != index.len() {
        return false;
    }
    let d = features_of(index);
    if d < 1 {
        return false;
    }
    if FEATURES < d {
        return false;
    }
    let fresh = fresh_page(index);
    if page_count(index) < fresh {
        return false;
    }
    let root = root_page(index);
    if root == 0 {
        return false;
    }
    if fresh <= root {
        return false;
    }
    level_at(index, root) == root_level(index)
}

// Does the chain of freed pages have no fault? Marks its pages.
pub fn walk_freed(index: &[u8], freed: &mut [u8]) -> bool
    requires { Clear (view_of index.now) freed.old × ((view_of index.now).fresh ≤ (view_of index.now).count) }
    ensures { Judges (FreedOk (view_of index.now) freed.new) (FailsAt (view_of index.now) 0) result }
{
    let pages = page_count(index);
    let fresh = fresh_page(index);
    let mut q = freed_head(index);
    for k in 0..pages {
        if q == 0 {
            return true;
        }
        if fresh <= q {
            return false;
        }
        let at = q as usize;
        if freed[at] == 1 {
            return false;
        }
        freed[at] = 1;
        q = link_at(index, q);
    }
    q == 0
}

// Is the root rightly filled?
pub fn root_filled(index: &[u8], root: u32) -> bool
    ensures { Decides (RootFill (page_at index.now root)) result }
{
    let n = count_at(index, root);
    if MOST < n {
        return false;
    }
    if level_at(index, root) == 0 {
        return true;
    }
    2 <= n
}

// Is page c in range, one level below `above` and rightly filled?
pub fn may_follow(index: &[u8], c: u32, above: u8) -> bool
    ensures { Decides (Follows (view_of index.now) above c) result }
{
    if !in_range(index, c) {
        return false;
    }
    let level = level_at(index, c);
    if above <= level {
        return false;
    }
    if above - level != 1 {
        return false;
    }
    let n = count_at(index, c);
    if n < LEAST {
        return false;
    }
    n <= MOST
}

// Marks the page, which has the level, after the pages to be followed from it.
pub fn reach(index: &[u8], page: u32, level: u8, marks: &mut [u16])
    requires { Ready (view_of index.now) marks.old page level }
    ensures { Grown (view_of index.now) marks.old marks.new page }
{
    let at = page as usize;
    if marks[at] != 0 {
        return;
    }
    if level == 0 {
        marks[at] = 1;
        return;
    }
    for i in 0..item_count(index, page) {
        let e = entry_at(index, page, i);
        let c = e.child;
        if may_follow(index, c, level) {
            reach(index, c, level - 1, marks);
        }
    }
    marks[at] = u16::from(level) + 1;
}

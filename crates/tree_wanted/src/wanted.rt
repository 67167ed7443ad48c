// The pages that an insertion wants.
ghost use Rattle.std.specs.Prelude.{◌≡◌, ◌+◌, ◌≤◌, leb};
ghost use Rattle.lists.specs.Basics.{indicator};
ghost use Rattle.pagestore.specs.Store.{count_at};
ghost use Rattle.tree_core.specs.Insertion.{full_run, pages_wanted};

use pagestore::{MAX_ITEMS, Record, count_at, features_of, root_level, root_page};
use tree_core::{child_of, choose_at, record_rank};

// 1 if a page is full, else 0.
fn full_page(index: &[u8], page: u32) -> u32
    ensures { (result ≡ indicator (leb 16 (count_at index.now page))) × (result ≤ 1) }
{
    u32::from(MAX_ITEMS as u8 <= count_at(index, page))
}

// The full pages in an unbroken run upward from the leaf that an insertion of the rank comes to.
fn full_run(index: &[u8], page: u32, level: u8, rank: u64) -> u32
    ensures { (result ≡ full_run level index.now page rank) × (result ≤ level + 1) }
{
    let full = full_page(index, page);
    if level == 0 {
        return full;
    }
    let i = choose_at(index, page, rank);
    let child = child_of(index, page, i);
    let n = full_run(index, child, level - 1, rank);
    if n == u32::from(level) { n + full } else { n }
}

// Pages wanted by an insertion: that run, plus one if it takes in the root.
pub fn pages_wanted(index: &[u8], x: Record) -> u32
    ensures { result ≡ pages_wanted index.now x }
{
    let d = features_of(index);
    let level = root_level(index);
    let root = root_page(index);
    let rank = record_rank(x, d);
    let n = full_run(index, root, level, rank);
    n + u32::from(n == u32::from(level) + 1)
}

// The visit, best first.
ghost use Rattle.std.specs.Prelude.{◌≡◌, ◌≤◌, length};
ghost use Rattle.pagestore.specs.Store.{level, inner_at, entries_in, field_at};
ghost use Rattle.search_model.specs.Numbers.{max_level};
ghost use Rattle.search_model.specs.Asked.{asking};
ghost use Rattle.search_model.specs.Branches.{root_branch};
ghost use Rattle.search_frontier.specs.Keys.{key_of};
ghost use Rattle.search.specs.Steps.{Visits, Visited, Turns, GoesOn};
ghost use Rattle.search_model.specs.Visit.{reads_none};
ghost use Rattle.pagestore_page.specs.Layout.{max_items};

use crate::Seen;
use pagestore::{count_at, page_count, root_level, root_page, total_records};
use search_frontier::{Tables, bound_in, key_of, level_in, open_page, page_in, page_of, place_in};
use search_heap::pop;
use search_leaves::{Sought, filled, visit_leaf};
use search_model::MAX_LEVEL;
use search_rows::behind;

// Whether nothing is read: there are no records, or the root's level is that of no sound index.
#[tactic(auto, unfolding(search_model::specs::Visit::reads_none))]
pub fn reads_none(index: &[u8]) -> bool
    ensures { result ≡ reads_none index.now }
{
    total_records(index) == 0 || MAX_LEVEL < root_level(index)
}

// The key of the root, which needs no bound.
fn root_key(index: &[u8]) -> u64
    requires { field_at level index.now ≤ max_level }
    ensures { result ≡ key_of (root_branch index.now) }
{
    let level = root_level(index) as usize;
    let page = page_of(index, root_page(index));
    key_of(0, 0, level, page)
}

// The number of entries of an inner page.
fn entry_count(index: &[u8], page: u32) -> usize
    ensures { (result ≡ length (entries_in (inner_at index.now page))) × (result ≤ max_items) }
{
    filled(count_at(index, page) as usize)
}

// Whether the visit goes on: steps are left, and the first of n branches has a bound that does not exceed the k-th distance. An
// inner page is opened only if there is room for its branches.
fn goes_on(
    index: &[u8],
    slots: &[u64],
    n: usize,
    highs: &[u64],
    rows: usize,
    k: usize,
    steps: u32,
) -> bool
    requires { Turns slots.now n highs.now rows k }
    ensures { GoesOn index.now slots.now n highs.now rows k steps result }
{
    if steps == 0 || n == 0 || behind(highs, rows, k, bound_in(slots[0])) {
        return false;
    }
    level_in(slots[0]) == 0 || entry_count(index, page_in(slots[0])) + (n - 1) <= slots.len()
}

// Takes branches from the root on, the first one first, until its bound exceeds the k-th distance.
pub fn best_first(
    index: &[u8],
    sought: &Sought,
    near: &[u16],
    whole: &[u64],
    slots: &mut [u64],
    highs: &mut [u64],
    lows: &mut [u64],
) -> Seen
    requires { Visits index.now sought.now.asked.now near.now whole.now sought.now.k slots.old highs.old lows.old }
    ensures { Visited index.now (asking sought.now.asked.now sought.now.k sought.now.choice)
        highs.new lows.new result }
{
    let tables = Tables {
        asked: sought.asked,
        near,
        whole,
    };
    slots[0] = root_key(index);
    let mut n = 1;
    let mut rows = 0;
    let mut leaves = 0;
    let mut steps = 2 * page_count(index);
    while goes_on(index, slots, n, highs, rows, sought.k, steps) {
        steps -= 1;
        let key = pop(slots, n);
        n -= 1;
        let level = level_in(key);
        let page = page_in(key);
        let place = place_in(key);
        if level == 0 {
            rows = visit_leaf(index, page, sought, place, highs, lows, rows);
            leaves += 1;
        } else {
            n = open_page(slots, n, index, &tables, level - 1, place, page);
        }
    }
    Seen { rows, leaves }
}

// The frontier: keys of branches in a heap.
#![tactic(auto)]

ghost use Rattle.std.specs.Prelude.{◌≡◌, ◌≤◌, ◌<◌, min};
ghost use Rattle.search_model.specs.Numbers.{max_level};
ghost use Rattle.search_model.specs.Branches.{last_place, page_in};
ghost use Rattle.search_frontier.specs.Keys.{bound_in, place_in, level_in, number_in, key_of, Fits};
ghost use Rattle.geometry_bounds.specs.Bounds.{Ready};
ghost use Rattle.search_model.specs.Asked.{Seekable};
ghost use Rattle.search_frontier.specs.Opening.{SpanBound, EntryKey, Opens, OpenedAny};
ghost use Rattle.pagestore.specs.Store.{max_pages};

use geometry_bounds::bounds::bound;
use pagestore::{Entry, MAX_PAGES, count_at, entry_at, in_range};
use search_heap::push;
use search_leaves::filled;
use search_model::{LAST_PLACE, MAX_LEVEL};
use tree::leaf_count;

// A key holds so many pages, levels and positions; the highest level comes first.
const PAGES: u64 = MAX_PAGES as u64;

const TOP: u64 = MAX_LEVEL as u64;

const LEVELS: u64 = TOP + 1;

const PLACES: u64 = LAST_PLACE as u64 + 1;

// The branch of a key, field by field.
pub fn bound_in(key: u64) -> u64
    ensures { result ≡ bound_in key }
{
    key / PAGES / LEVELS / PLACES
}

pub fn place_in(key: u64) -> u32
    ensures { result ≡ place_in key }
{
    (key / PAGES / LEVELS % PLACES) as u32
}

pub fn level_in(key: u64) -> usize
    ensures { result ≡ level_in key }
{
    (TOP - key / PAGES % LEVELS) as usize
}

pub fn page_in(key: u64) -> u32
    ensures { result ≡ number_in key }
{
    (key % PAGES) as u32
}

// The key of a branch.
pub fn key_of(bound: u64, place: usize, level: usize, page: u32) -> u64
    requires { Fits (record { bound = bound; place = place; level = level; page = page }) }
    ensures { result ≡ key_of (record { bound = bound; place = place; level = level; page = page }) }
{
    let upper = (bound * PLACES + place as u64) * LEVELS + (TOP - level as u64);
    upper * PAGES + u64::from(page)
}

// A page of the index, or 0.
pub fn page_of(index: &[u8], page: u32) -> u32
    ensures { (result ≡ page_in index.now page) × (result < max_pages) }
{
    if in_range(index, page) { page } else { 0 }
}

// A position, or the greatest that a key holds.
fn place_of(at: usize) -> usize
    ensures { (result ≡ min at last_place) × (result ≤ last_place) }
{
    at.min(LAST_PLACE)
}

// A question and its tables.
#[derive(Clone, Copy)]
pub struct Tables<'a> {
    pub asked: &'a [u16],
    pub near: &'a [u16],
    pub whole: &'a [u64],
    ghost ready: { Ready asked.now near.now whole.now },
}

impl<'a> Tables<'a> {
    // The bound of an entry's span.
    fn span_bound(&self, entry: Entry) -> u64
        requires { Seekable self.now.asked.now }
        ensures { SpanBound self.now.asked.now entry result }
    {
        bound(
            self.asked,
            self.near,
            self.whole,
            entry.first.pair(),
            entry.last.pair(),
        )
    }

    // The key of the branch of an entry, whose child has a level and whose first leaf a place.
    fn entry_key(&self, index: &[u8], entry: Entry, level: usize, at: usize) -> u64
        requires { Seekable self.now.asked.now × (level ≤ max_level) }
        ensures { EntryKey index.now self.now.asked.now level at entry result }
    {
        let bound = self.span_bound(entry);
        let page = page_of(index, entry.child);
        key_of(bound, place_of(at), level, page)
    }
}

// Opens an inner page: puts the branches of its entries into the frontier of n branches. Their children have a level, and
// their first leaf a place.
pub fn open_page(
    slots: &mut [u64],
    n: usize,
    index: &[u8],
    tables: &Tables,
    level: usize,
    place: u32,
    page: u32,
) -> usize
    requires { Opens slots.old n index.now tables.now.asked.now level place page }
    ensures { OpenedAny slots.old n index.now tables.now.asked.now level place page result
        slots.new }
{
    let count = filled(count_at(index, page) as usize);
    let mut held = n;
    let mut at = place as usize;
    for i in 0..count {
        let entry = entry_at(index, page, i);
        let key = tables.entry_key(index, entry, level, at);
        held = push(slots, held, key);
        at += leaf_count(index, level, entry.child);
    }
    held
}

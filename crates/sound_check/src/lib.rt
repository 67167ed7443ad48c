// The check: is an index sound, and if not, at which page does soundness fail?
//
// In phases, each of which ends at the first fault: the header; the chain of freed pages, which are marked; the root; `reach`, the only
// recursion, which marks the pages that are followed; these pages in turn, each by itself; their entries; the total; pages in no state;
// identifiers. Linear on any bytes.
#![tactic(auto)]

ghost use Rattle.std.specs.Prelude.{◌≤◌};
ghost use Rattle.pagestore.specs.Store.{max_pages, view_of};
ghost use Rattle.sound_links.specs.Marks.{Clear, MarksAre};
ghost use Rattle.tree_model.specs.Sound.{max_points};
ghost use Rattle.sound_check.specs.Outcome.{Start, Lent, Whole, GroundJudged, Verdict};

use pagestore::{features_of, page_count, root_level, root_page, total_records};
use pagestore_page::{MAX_PAGES, MAX_POINTS};
pub use sound_faults::Fault;
use sound_keys::Ends;
use sound_links::{header_fine, reach, root_filled, walk_freed};
use sound_pages::{Survey, find_lost};
use sound_repeats::lowest_repeat_of;
use sound_visit::visit;

// Room for all pages and points of an index, and for those of a small one.
const PAGES: usize = MAX_PAGES as usize;

const POINTS: usize = MAX_POINTS as usize;

const FEW_PAGES: usize = SMALL_PAGES as usize;

const FEW_POINTS: usize = SMALL_POINTS as usize;

const SMALL_PAGES: u32 = 1024;

const SMALL_POINTS: u32 = 4096;

// What is judged of the whole, where no page and no entry has a fault: the total of n records, pages in no state, identifiers.
fn check_whole(
    index: &[u8],
    n: usize,
    marks: &[u16],
    freed: &[u8],
    ids: &[u32],
    holders: &[u16],
) -> Result<(), Fault>
    requires { Whole (view_of index.now) marks.now freed.now n ids.now holders.now }
    ensures { Verdict index.now result }
{
    let total = total_records(index) as usize;
    if n != total {
        return Err(Fault { page: 0 });
    }
    if POINTS < n {
        return Err(Fault { page: 0 });
    }
    find_lost(index, marks, freed)?;
    let p = lowest_repeat_of(ids, holders, n);
    if p == 0 {
        Ok(())
    } else {
        Err(Fault { page: u32::from(p) })
    }
}

// The tree, of which the followed pages are marked.
fn check_tree(
    index: &[u8],
    marks: &[u16],
    freed: &[u8],
    named: &mut [u8],
    ends: &mut [Ends],
    ids: &mut [u32],
    holders: &mut [u16],
) -> Result<(), Fault>
    requires { Start (view_of index.now) freed.now × MarksAre (view_of index.now) marks.now
        × Lent (view_of index.now) named.old ends.old ids.old holders.old }
    ensures { Verdict index.now result }
{
    let d = features_of(index) as usize;
    let n = visit(index, d, marks, ends, ids, holders)?;
    let survey = Survey {
        index: index,
        marks: marks,
        freed: freed,
        ends: ends,
    };
    survey.judge_parents(named)?;
    check_whole(index, n, marks, freed, ids, holders)
}

// The header, the freed pages and the root; then the pages that are followed from it are marked.
fn check_ground(index: &[u8], marks: &mut [u16], freed: &mut [u8]) -> Result<(), Fault>
    requires { Clear (view_of index.now) marks.old × Clear (view_of index.now) freed.old }
    ensures { GroundJudged (view_of index.now) marks.new freed.new result }
{
    if !header_fine(index) {
        return Err(Fault { page: 0 });
    }
    if !walk_freed(index, freed) {
        return Err(Fault { page: 0 });
    }
    let root = root_page(index);
    if freed[root as usize] == 1 {
        return Err(Fault { page: 0 });
    }
    if !root_filled(index, root) {
        return Err(Fault { page: root });
    }
    reach(index, root, root_level(index), marks);
    Ok(())
}

// The whole check, with room for so many pages and points.
fn check_with<const PAGES: usize, const POINTS: usize>(index: &[u8]) -> Result<(), Fault>
    requires fits { (PAGES ≤ max_pages) × (POINTS ≤ max_points) }
    requires pages { (view_of index.now).count ≤ PAGES }
    requires points { (view_of index.now).total ≤ max_points → (view_of index.now).total ≤ POINTS }
    ensures { Verdict index.now result }
{
    let mut marks = [0u16; PAGES];
    let mut freed = [0u8; PAGES];
    check_ground(index, &mut marks, &mut freed)?;
    let mut named = [0u8; PAGES];
    let mut ends = [Ends { first: 0, last: 0 }; PAGES];
    let mut ids = [0u32; POINTS];
    let mut holders = [0u16; POINTS];
    check_tree(
        index,
        &marks,
        &freed,
        &mut named,
        &mut ends,
        &mut ids,
        &mut holders,
    )
}

// Is the index sound? The length is for the caller to test: of one that is not permitted, `Ok` says nothing. A small index is spared the room
// for 16,384 pages and 65,535 points.
#[tactic(auto, using(pagestore::specs::Store::RangeLaws::pages_few), unfolding(pagestore::specs::Store::view_of))]
pub fn check(index: &[u8]) -> Result<(), Fault>
    ensures { Verdict index.now result }
{
    if SMALL_PAGES < page_count(index) {
        check_with::<PAGES, POINTS>(index)
    } else if SMALL_POINTS < total_records(index) {
        check_with::<FEW_PAGES, POINTS>(index)
    } else {
        check_with::<FEW_PAGES, FEW_POINTS>(index)
    }
}

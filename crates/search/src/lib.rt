// The search by itself: from a lent index and what was asked to the nearest rows and the number of leaves read. It assumes
// nothing of the bytes: on any of them it ends, after at most twice as many steps as there are pages.
// Best first (01, "A question"): a heap holds branches, pages of every level, by bound, position of the first leaf, level
// from the highest on, and page. The first one is taken until its bound exceeds the k-th distance: an inner page gives its
// entries to the heap, a leaf page is handed to the one function that reads leaf pages.
#![tactic(auto)]

ghost use Rattle.std.specs.Prelude.{◌≡◌, false};
ghost use Rattle.search.specs.Steps.{asks, Looks, Searches, Searched};
ghost use Rattle.search_model.specs.Visit.{reads_none, room};
ghost use Rattle.search_model.specs.Asked.{asking};

use crate::visit::{best_first, reads_none};
use geometry_bounds::bounds::prepare;
use geometry_slices::asked::is_unweighted;
use geometry_slices::{ASKED_PLACES, NEAR_PLACES, REACHES_FROM, WHOLE_PLACES};
use pagestore::total_records;
use search_leaves::Sought;
use search_model::{
    Choice, FEW_RECORDS, FULL_ROOM, LARGE_ROOM, MANY_RECORDS, MIDDLE_ROOM, SMALL_ROOM, SOME_RECORDS,
};

mod visit;

// What is asked: the features, laid out in one list as `geometry_slices::asked::ask` does it, their number, how many rows, and of
// which records.
#[derive(Clone, Copy)]
pub struct Query {
    pub features: [u16; ASKED_PLACES],
    pub d: usize,
    pub k: usize,
    pub choice: Choice,
}

// What a search has seen: the number of rows held in the arrays lent to it, and the number of leaves read.
#[derive(Clone, Copy)]
pub struct Seen {
    pub rows: usize,
    pub leaves: u32,
}

// The search of an index in which something is read, with room for so many branches.
fn search_with<const ROOM: usize>(
    index: &[u8],
    asked: &[u16],
    k: usize,
    choice: Choice,
    highs: &mut [u64],
    lows: &mut [u64],
) -> Seen
    requires looks { Looks asked.now k highs.old lows.old }
    requires some { reads_none index.now ≡ false }
    requires room { ROOM ≡ room index.now }
    ensures { Searched index.now (asking asked.now k choice)
        highs.new lows.new result }
{
    let mut slots = [0u64; ROOM];
    let mut near = [0u16; NEAR_PLACES];
    let mut whole = [0u64; WHOLE_PLACES];
    prepare(asked, &mut near, &mut whole);
    let sought = Sought {
        asked,
        unweighted: is_unweighted(asked),
        k,
        choice,
    };
    best_first(index, &sought, &near, &whole, &mut slots, highs, lows)
}

// The search of any index. One of few records gets little room: clearing more would take most of its search's time.
fn search_for(
    index: &[u8],
    asked: &[u16],
    k: usize,
    choice: Choice,
    highs: &mut [u64],
    lows: &mut [u64],
) -> Seen
    requires { Looks asked.now k highs.old lows.old }
    ensures { Searched index.now (asking asked.now k choice)
        highs.new lows.new result }
{
    if reads_none(index) {
        return Seen { rows: 0, leaves: 0 };
    }
    let total = total_records(index);
    let few = total <= FEW_RECORDS;
    let some = total <= SOME_RECORDS;
    let many = total <= MANY_RECORDS;
    if few {
        search_with::<SMALL_ROOM>(index, asked, k, choice, highs, lows)
    } else if some {
        search_with::<MIDDLE_ROOM>(index, asked, k, choice, highs, lows)
    } else if many {
        search_with::<LARGE_ROOM>(index, asked, k, choice, highs, lows)
    } else {
        search_with::<FULL_ROOM>(index, asked, k, choice, highs, lows)
    }
}

// The nearest of the index's records to what is asked, as upper and lower words in the arrays lent: how many there are, and the number
// of leaves read.
pub fn search(index: &[u8], what: Query, highs: &mut [u64], lows: &mut [u64]) -> Seen
    requires { Searches what highs.old lows.old }
    ensures { Searched index.now (asks what) highs.new lows.new result }
{
    let features = what.features;
    let choice = what.choice;
    let end = REACHES_FROM + what.d;
    search_for(index, &features[..end], what.k, choice, highs, lows)
}

// Leaves: the one function that reads leaf pages.
#![tactic(auto)]

ghost use Rattle.std.specs.Prelude.{◌≡◌, true, ◌≤◌, ◌<◌, min, length, get_or, take};
ghost use Rattle.lists.specs.Sorting.{count};
ghost use Rattle.search_rows.specs.Rows.{positions};
ghost use Rattle.search_rows.specs.Held.{Held};
ghost use Rattle.search_leaves.specs.Columns.{row_at, not_past, BehindPast};
ghost use Rattle.search_model.specs.Asked.{in_stages, Seekable};
ghost use Rattle.geometry_slices.specs.Questions.{Unweighted};
ghost use Rattle.search_leaves.specs.Offering.{Tells, Offers, OfferedRecords, ones, LeafOffers, OfferedPart, OfferedLeaf};
ghost use Rattle.pagestore_page.specs.Layout.{max_items, page_size};

use crate::columns::{add_columns, add_weighted_columns};
use calendar::in_window;
use geometry_slices::{REACHES_FROM, WEIGHTS_FROM};
use pagestore::{
    MAX_ITEMS, PAGE_SIZE, in_range, lanes, read_count, read_ident, read_stage, read_stamp,
};
use search_model::Choice;
use search_rows::{Row, behind, distance_in, offer};

mod columns;

// The greatest distance of 32 bits.
const FAR: u64 = 4294967295;

// So many bits a set of stages has.
const SET_BITS: u8 = 8;

// How many items a page with this count has: there are so many slots.
pub fn filled(count: usize) -> usize
    ensures { result ≡ min count max_items }
{
    count.min(MAX_ITEMS)
}

// A distance beyond which, up to 32 bits, a row is behind all k rows; with fewer than k rows there is none.
fn limit_of(highs: &[u64], n: usize, k: usize) -> u32
    requires { k ≤ length highs.now }
    ensures { BehindPast highs.now n k result }
{
    if n < k || k == 0 {
        return FAR as u32;
    }
    distance_in(highs[k - 1]).min(FAR) as u32
}

// How many of the first n sums are not beyond the limit.
fn within(sums: &[u32], n: usize, limit: u32) -> u32
    requires { (n ≤ length sums.now) × (n ≤ max_items) }
    ensures { result ≡ count (not_past limit) (take n sums.now) }
{
    let mut near = 0;
    for r in 0..n {
        near += u32::from(sums[r] <= limit);
    }
    near
}

// Whether a stage is in a set, bit s for stage s. A stored stage past the bits of a set, which no sound index has, is in none.
fn in_stages(stages: u8, stage: u8) -> bool
    ensures { result ≡ in_stages stages stage }
{
    stage < SET_BITS && (stages >> stage) & 1 == 1
}

// Whether the record in slot i of a leaf page is one of those looked for.
fn is_candidate(page: &[u8], i: usize, choice: Choice) -> bool
    requires { (length page.now ≡ page_size) × (i < max_items) }
    ensures { Tells page.now i choice result }
{
    in_stages(choice.stages, read_stage(page, i)) && in_window(choice.window, read_stamp(page, i))
}

// The row of the record in slot i of a leaf page at a position, whose distance is told.
fn row_in(page: &[u8], i: usize, distance: u64, position: u32) -> Row
    requires { (length page.now ≡ page_size) × (i < max_items) }
    ensures { result ≡ row_at page.now i distance position }
{
    Row {
        distance,
        id: read_ident(page, i),
        stamp: read_stamp(page, i),
        position: u64::from(position),
    }
}

// Offers the first records of a leaf page, as many as `count`, whose distances are told, to the n rows held. Records are offered from
// the last on: of those at one point identifiers rise, and where stamps rise with them, as in one recording, the best are offered first.
// The identifier and the stamp of a record are read only where its distance is near enough for a row.
fn offer_records<D: Fn(usize) -> u64>(
    page: &[u8],
    count: usize,
    distance: D,
    position: u32,
    highs: &mut [u64],
    lows: &mut [u64],
    n: usize,
    k: usize,
    choice: Choice,
) -> usize
    requires { Offers (D.pre distance) (D.post distance) page.now count position highs.old lows.old n k }
    ensures { OfferedRecords (D.post distance) page.now count position highs.old lows.old n k choice
        result highs.new lows.new }
{
    let mut rows = n;
    for i in (0..count).rev() {
        let far = distance(i);
        let taken = !behind(highs, rows, k, far) && is_candidate(page, i, choice);
        if taken {
            rows = offer(highs, lows, rows, k, row_in(page, i, far, position));
        }
    }
    rows
}

// Offers the records of a leaf page to the n rows held, for a point without weights. The distances come first, all together; where
// none is near enough, no record is looked at.
fn offer_plain(
    page: &[u8],
    q: &[u16],
    position: u32,
    highs: &mut [u64],
    lows: &mut [u64],
    n: usize,
    k: usize,
    choice: Choice,
) -> usize
    requires { LeafOffers page.now (ones q.now) q.now position highs.old lows.old n k }
    ensures { OfferedPart page.now (ones q.now) q.now position
        highs.old lows.old n k choice result highs.new lows.new }
{
    let count = filled(read_count(page));
    let full = lanes(count);
    let mut sums = [0u32; MAX_ITEMS];
    add_columns(page, q, full, &mut sums);
    if within(&sums, full, limit_of(highs, n, k)) == 0 {
        return n;
    }
    let distance = |i: usize| -> u64
        requires { i < max_items }
        ensures { result ≡ get_or sums i 0 }
    { u64::from(sums[i]) };
    offer_records(page, count, distance, position, highs, lows, n, k, choice)
}

// The same for a point with weights, whose sums take more than 32 bits; each record is looked at.
fn offer_weighted(
    page: &[u8],
    q: &[u16],
    weights: &[u16],
    position: u32,
    highs: &mut [u64],
    lows: &mut [u64],
    n: usize,
    k: usize,
    choice: Choice,
) -> usize
    requires { LeafOffers page.now weights.now q.now position highs.old lows.old n k }
    ensures { OfferedPart page.now weights.now q.now position
        highs.old lows.old n k choice result highs.new lows.new }
{
    let count = filled(read_count(page));
    let full = lanes(count);
    let mut sums = [0u64; MAX_ITEMS];
    add_weighted_columns(page, q, weights, full, &mut sums);
    let distance = |i: usize| -> u64
        requires { i < max_items }
        ensures { result ≡ get_or sums i 0 }
    { sums[i] };
    offer_records(page, count, distance, position, highs, lows, n, k, choice)
}

// Offers the records of a leaf page, handed over as a part of the index, to the n rows held. No function of the search reads a
// leaf page but this one and those to which it hands the part on.
fn offer_leaf(
    page: &[u8],
    q: &[u16],
    weights: &[u16],
    unweighted: bool,
    position: u32,
    highs: &mut [u64],
    lows: &mut [u64],
    n: usize,
    k: usize,
    choice: Choice,
) -> usize
    requires { LeafOffers page.now weights.now q.now position highs.old lows.old n k
        × (unweighted ≡ true → weights.now ≡ ones q.now) }
    ensures { OfferedPart page.now weights.now q.now position
        highs.old lows.old n k choice result highs.new lows.new }
{
    if unweighted {
        return offer_plain(page, q, position, highs, lows, n, k, choice);
    }
    offer_weighted(page, q, weights, position, highs, lows, n, k, choice)
}

// What is sought: a question laid out as one list, whether each of its weights is 1, how many rows, and of which records.
#[derive(Clone, Copy)]
pub struct Sought<'a> {
    pub asked: &'a [u16],
    pub unweighted: bool,
    pub k: usize,
    pub choice: Choice,
    ghost flag: { unweighted ≡ true → Unweighted asked.now },
}

// Reads the leaf at a page and offers its records; a number that is no page's has none.
pub fn visit_leaf(
    index: &[u8],
    page: u32,
    sought: &Sought,
    position: u32,
    highs: &mut [u64],
    lows: &mut [u64],
    n: usize,
) -> usize
    requires { Seekable sought.now.asked.now × (position < positions) × Held highs.old lows.old n sought.now.k }
    ensures { OfferedLeaf index.now page sought.now.asked.now position highs.old lows.old
        n sought.now.k sought.now.choice result highs.new lows.new }
{
    if !in_range(index, page) {
        return n;
    }
    let at = page as usize * PAGE_SIZE;
    let end = at + PAGE_SIZE;
    let d = sought.asked.len() - REACHES_FROM;
    let last = WEIGHTS_FROM + d;
    offer_leaf(
        &index[at..end],
        &sought.asked[..d],
        &sought.asked[WEIGHTS_FROM..last],
        sought.unweighted,
        position,
        highs,
        lows,
        n,
        sought.k,
        sought.choice,
    )
}

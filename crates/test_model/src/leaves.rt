// The leaves that a question has to read, counted apart from the search: the pairs of their first and last records, and for each question
// the least distance at every pair.
ghost use Rattle.std.specs.Prelude.{◌<◌, ◌≤◌, length};
ghost use Rattle.std.specs.Range.{range_inclusive_end, range_inclusive_start};

use crate::Scene;
use crate::marks::Mark;
use crate::origin::Origin;
use crate::scan::FAR;
use geometry::{MAX_COORDINATE, MAX_FEATURES};
use pagestore::{Leaf, MAX_ITEMS, Record, leaf_at};
use std::ops::RangeInclusive;
use test_parts::places::MAX_PLACE;

// The heights of a pyramid: 0 to 1,000.
pub const HEIGHTS: usize = 1001;

// The pairs of a pyramid and a height.
pub const PAIRS: usize = 2 * MAX_FEATURES * HEIGHTS;

// Their spans, as numbers of pairs

// How far a place is from the centre's.
fn magnitude(place: u16) -> u16
    ensures { result ≤ 1000 }
{
    place.min(MAX_PLACE).abs_diff(MAX_COORDINATE)
}

// The first coordinate whose magnitude is greatest.
fn axis_of(places: &[u16]) -> usize
    requires { 0 < length places.now }
    ensures { result < length places.now }
{
    let mut axis = 0;
    for m in 1..places.len() {
        if magnitude(places[axis]) < magnitude(places[m]) {
            axis = m;
        }
    }
    axis
}

// The pair of a point as one number: 1,001 times its pyramid, and its height.
fn pair_number(places: &[u16]) -> usize
    requires { (0 < length places.now) × (length places.now ≤ 16) }
    ensures { result < 32032 }
{
    let axis = axis_of(places);
    let place = places[axis];
    let pyramid = if place < MAX_COORDINATE {
        axis
    } else {
        axis + places.len()
    };
    HEIGHTS * pyramid + usize::from(magnitude(place))
}

// The pairs of a leaf's first record and of its last one.
fn span(leaf: &Leaf, d: usize) -> RangeInclusive<usize>
    requires { (1 ≤ d) × (d ≤ 16) }
    ensures { (range_inclusive_start result < 32032) × (range_inclusive_end result < 32032) }
{
    let last = leaf.count.min(MAX_ITEMS).saturating_sub(1);
    pair_number(&leaf.records[0].coords[..d])..=pair_number(&leaf.records[last].coords[..d])
}

// The distance at each pair

// The least gap at coordinate m to a point of height h whose axis is `axis`: it is strictly nearer the centre before the axis.
fn least_gap(place: u16, m: usize, axis: usize, below: bool, h: u16) -> u16
    requires { (0 < h) × (h ≤ 1000) }
{
    if m == axis {
        place.abs_diff(if below {
            MAX_COORDINATE - h
        } else {
            MAX_COORDINATE + h
        })
    } else if m < axis {
        magnitude(place).saturating_sub(h - 1)
    } else {
        magnitude(place).saturating_sub(h)
    }
}

// The least distance from the origin to a point of a pair, if some point has it.
fn pair_distance(origin: &Origin, pyramid: usize, h: u16) -> Option<u64>
    requires { h ≤ 1000 }
{
    let d = origin.d;
    if h == 0 {
        return (pyramid == d).then(|| origin.weigh(|m| magnitude(origin.places[m])));
    }
    if 2 * d <= pyramid {
        return None;
    }
    let below = pyramid < d;
    let axis = if below { pyramid } else { pyramid - d };
    Some(origin.weigh(|m| least_gap(origin.places[m], m, axis, below, h)))
}

// The least distance at each pair.
pub fn table_of(origin: &Origin) -> [u64; PAIRS] {
    let mut table = [FAR; PAIRS];
    for (i, least) in table.iter_mut().enumerate() {
        if let Some(distance) = pair_distance(origin, i / HEIGHTS, (i % HEIGHTS) as u16) {
            *least = distance;
        }
    }
    table
}

// The bound of a span of pairs.
fn span_bound(table: &[u64; PAIRS], span: RangeInclusive<usize>) -> u64 {
    table
        .get(span)
        .and_then(|distances| distances.iter().copied().min())
        .unwrap_or(FAR)
}

// How many leaves have a bound of at most a distance.
pub fn leaves_within(scene: &Scene, origin: &Origin, distance: u64) -> usize
    requires { 1 ≤ origin.now.d }
{
    let table = table_of(origin);
    scene
        .leaves
        .iter()
        .filter(|page| span_bound(&table, span(&leaf_at(scene.index, **page), origin.d))
            <= distance)
        .count()
}

// Whether a record has the identifier, with the mark of its stage and its stamp.
fn fits(record: &Record, id: u32, mark: u64) -> bool {
    let Record { stage, stamp, .. } = *record;
    record.id == id && u64::from(Mark { stage, stamp }) == mark
}

// Whether the leaf at a position holds an identifier with its mark, once. No leaf holds one with a number that is no mark.
pub fn holds(scene: &Scene, position: u64, id: u32, mark: impl Into<u64>) -> bool {
    let mark = mark.into();
    let Some(page) = usize::try_from(position)
        .ok()
        .and_then(|at| scene.leaves.get(at))
    else {
        return false;
    };
    let leaf = leaf_at(scene.index, *page);
    leaf.records[..leaf.count.min(MAX_ITEMS)]
        .iter()
        .filter(|record| fits(record, id, mark))
        .count()
        == 1
}

#[cfg(test)]
mod tests {
    use super::*;
    use pagestore::{PAGE_SIZE, set_leaf};
    use pagestore_page::no_record;

    // A record is held with the number of its mark, and with no other number.
    #[test]
    fn mark_of_any_number(rt: HostRuntime) {
        let mut records = [no_record(); MAX_ITEMS];
        records[0].id = 5;
        records[0].stage = 2;
        records[0].stamp = 9;
        let mut index = [0u8; 2 * PAGE_SIZE];
        set_leaf(&mut index, 1, Leaf { count: 1, records });
        let scene = Scene {
            index: &index,
            leaves: &[1],
            points: &[],
        };
        assert!(rt; holds(&scene, 0, 5, Mark { stage: 2, stamp: 9 }));
        assert!(rt; holds(&scene, 0, 5, 4613u64));
        for number in [0u64, 4612, 4614, 4613 + 2199023255552] {
            assert!(rt; !holds(&scene, 0, 5, number), "held with {number}");
        }
    }
}

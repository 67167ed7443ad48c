// The tables of a question that its slices are summed from: the row of each axis, and the least distance to each whole pyramid.
ghost use Rattle.std.specs.Prelude.{◌≡◌, ◌+◌, ◌*◌, ◌-◌, ◌<◌, ◌≤◌, ltb, eqb, length};
ghost use Rattle.lists.specs.Basics.{if, indicator};
ghost use Rattle.geometry.specs.Numbers.{max_features};
ghost use Rattle.geometry_slices.specs.Questions.{Packed, Unweighted, near_places, whole_places, row_from, Filled, Heights, Wholes};
ghost use Rattle.geometry_slices.specs.Tables.{row_in, Counted, Reached, RowRoom, Rowed, RowsOver};

use crate::asked::is_unweighted;
use crate::slices::{lowest, slice_in, width};
use crate::{REACHES_FROM, ROWS_FROM, UNWEIGHTED_AT};
use geometry::MAX_FEATURES;

// So many coordinates are quickly summed with their weights.
const FEW_FEATURES: usize = 4;

// What coordinate m has to come down from beside axis j.
fn row_at(reach: u16, m: u16, j: u16) -> u16
    ensures { result ≡ if (eqb m j) 0 (reach - indicator (ltb j m)) }
{
    if m == j {
        0
    } else if j < m {
        reach.saturating_sub(1)
    } else {
        reach
    }
}

// The number of each place of a row.
fn places() -> [u16; MAX_FEATURES]
    ensures { Counted result }
{
    let mut places = [0u16; MAX_FEATURES];
    for m in 0..MAX_FEATURES {
        places[m] = m as u16;
    }
    places
}

// The reaches of a question, and 0 past its coordinates.
fn reaches(asked: &[u16]) -> [u16; MAX_FEATURES]
    requires { Packed asked.now }
    ensures { Reached asked.now result }
{
    let d = asked.len() - REACHES_FROM;
    let mut reach = [0u16; MAX_FEATURES];
    reach[..d].copy_from_slice(&asked[REACHES_FROM..]);
    reach
}

// The row of axis j.
fn fill_row(reach: &[u16], places: &[u16], j: usize, n: usize, near: &mut [u16])
    requires { RowRoom reach.now places.now n near.old × (j < max_features) }
    ensures { Filled (row_in reach.now j) (row_from j) n near.old near.new }
{
    let at = ROWS_FROM + MAX_FEATURES * j;
    let axis = j as u16;
    for m in 0..n {
        near[at + m] = row_at(reach[m], places[m], axis);
    }
}

// The rows of d axes.
fn each_row(reach: &[u16], places: &[u16], d: usize, n: usize, near: &mut [u16])
    requires { RowRoom reach.now places.now n near.old × (d ≤ max_features) }
    ensures { Rowed reach.now d n near.old near.new }
{
    for j in 0..d {
        fill_row(reach, places, j, n, near);
    }
}

// The flag of a question: 1 only where its rows may be summed without weights. With few coordinates there is nothing to gain by that.
fn flag(asked: &[u16]) -> u16
    requires { Packed asked.now }
    ensures { result ≡ 1 → Unweighted asked.now }
{
    u16::from(asked.len() - REACHES_FROM > FEW_FEATURES && is_unweighted(asked))
}

// The rows of a question, and its flag.
pub fn fill_rows(asked: &[u16], near: &mut [u16])
    requires { Packed asked.now × (length near.old ≡ near_places) }
    ensures { RowsOver asked.now near.old near.new }
{
    let d = asked.len() - REACHES_FROM;
    let n = width(d);
    let reach = reaches(asked);
    let places = places();
    each_row(&reach, &places, d, n, near);
    near[UNWEIGHTED_AT] = flag(asked);
}

// The least distance to each whole pyramid.
pub fn fill_whole(asked: &[u16], near: &[u16], whole: &mut [u64])
    requires { Heights asked.now near.now × (length whole.old ≡ whole_places) }
    ensures { Wholes asked.now whole.new × (length whole.new ≡ whole_places) }
{
    let d = asked.len() - REACHES_FROM;
    for i in 0..2 * d {
        whole[i] = slice_in(asked, near, i, lowest(d, i).max(near[i]));
    }
}

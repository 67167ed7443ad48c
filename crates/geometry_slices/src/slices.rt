// The least distance to the grid points of one pyramid and height: a sum over the row of its axis, which has what each coordinate has to
// come down from.
ghost use Rattle.std.specs.Prelude.{◌≡◌, ◌+◌, ◌*◌, ◌-◌, ◌<◌, ◌≤◌, length};
ghost use Rattle.geometry.specs.Numbers.{max_features, max_coordinate};
ghost use Rattle.geometry.specs.Features.{gap_of};
ghost use Rattle.geometry.specs.Stored.{coord_of};
ghost use Rattle.geometry.specs.Slices.{on_axis, axis_no, slice_at, lowest_of};
ghost use Rattle.geometry_slices.specs.Questions.{reaches_from, size_of, asked_of, small_reach, sum_to, row_from, width_of, row_cost, row_square, Rows};
ghost use Rattle.geometry_slices.specs.Tables.{Squares};

use crate::{HIGHS_FROM, REACHES_FROM, ROWS_FROM, SMALL_REACH, UNWEIGHTED_AT, WEIGHTS_FROM};
use geometry::points::{gap, weigh};
use geometry::{MAX_COORDINATE, MAX_FEATURES};

// How many places of a row are summed: not a constant, so that the sum runs in lanes; none where there is no other coordinate.
pub fn width(d: usize) -> usize
    ensures { result ≡ width_of d }
{
    match d {
        0..=1 => 0,
        2..=4 => 4,
        5..=8 => 8,
        _ => MAX_FEATURES,
    }
}

// What n places of a row at a place of near cost at height h.
fn row_sum(asked: &[u16], near: &[u16], at: usize, n: usize, h: u16) -> u64
    requires { (reaches_from ≤ length asked.now) × (n ≤ max_features) × (at + n ≤ length near.now) }
    ensures { (result ≡ sum_to n (row_cost asked.now near.now at h)) × (result ≤ 281474976710656 * n) }
{
    let mut sum: u64 = 0;
    for m in 0..n {
        sum += weigh(asked[WEIGHTS_FROM + m], near[at + m].saturating_sub(h));
    }
    sum
}

// The square of a number below 2,048: the remainder tells the compiler so, and it multiplies 16 bits in a lane.
fn square(x: u16) -> u32
    requires { x < small_reach }
    ensures { (result ≡ x * x) × (result ≤ 4194304) }
{
    let g = u32::from(x % SMALL_REACH);
    g * g
}

// What n places of a row cost at height h without weights.
// Kept beside row_sum: the two differ in what they sum, not only in its width, so that one generic function would have to be told both.
fn row_squares(near: &[u16], at: usize, n: usize, h: u16) -> u32
    requires { Squares near.now at n }
    ensures { (result ≡ sum_to n (row_square near.now at h)) × (result ≤ 4194304 * n) }
{
    let mut sum: u32 = 0;
    for m in 0..n {
        sum += square(near[at + m].saturating_sub(h));
    }
    sum
}

// What the row of axis j costs at height h.
fn row_cost(asked: &[u16], near: &[u16], j: usize, h: u16) -> u64
    requires { Rows asked.now near.now × (j < size_of asked.now) }
    ensures { (result ≡ sum_to (width_of (size_of asked.now)) (row_cost asked.now near.now (row_from j) h))
        × (result ≤ 4503599627370496) }
{
    let at = ROWS_FROM + MAX_FEATURES * j;
    let n = width(asked.len() - REACHES_FROM);
    if near[UNWEIGHTED_AT] == 1 {
        u64::from(row_squares(near, at, n, h))
    } else {
        row_sum(asked, near, at, n, h)
    }
}

// The gap of height h on an axis, on the side below 0 or not, from a stored range.
fn axis_gap(low: u16, high: u16, below: bool, h: u16) -> u16
    requires { h ≤ max_coordinate }
    ensures { result ≡ gap_of (coord_of low) (coord_of high) (on_axis below h) }
{
    let x = if below {
        MAX_COORDINATE - h
    } else {
        MAX_COORDINATE + h
    };
    gap(low, high, x)
}

// The axis of pyramid i of d coordinates.
#[tactic(auto, unfolding(geometry::specs::Slices::axis_no))]
fn axis_no(d: usize, i: usize) -> usize
    requires { i < d + d }
    ensures { (result ≡ axis_no d i) × (result < d) }
{
    if i < d { i } else { i - d }
}

// The least distance to the grid points of pyramid i at height h.
pub fn slice_in(asked: &[u16], near: &[u16], i: usize, h: u16) -> u64
    requires { Rows asked.now near.now × (i < size_of asked.now + size_of asked.now) × (h ≤ max_coordinate) }
    ensures { result ≡ slice_at (asked_of asked.now) i h }
{
    let d = asked.len() - REACHES_FROM;
    let j = axis_no(d, i);
    let on = weigh(
        asked[WEIGHTS_FROM + j],
        axis_gap(asked[j], asked[HIGHS_FROM + j], i < d, h),
    );
    on + row_cost(asked, near, j, h)
}

// The least height of pyramid i that has grid points: 0 is the centre's, in pyramid d.
pub fn lowest(d: usize, i: usize) -> u16
    ensures { result ≡ lowest_of d i }
{
    if i == d { 0 } else { 1 }
}

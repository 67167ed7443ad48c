// The tables of the lanes: for each pyramid its axis, the axis' weight and end, and what each coordinate falls by in it.
ghost use Rattle.std.specs.Prelude.{◌≡◌, ℕ, ◌+◌, ◌*◌, ◌<◌, ◌≤◌, ltb, length};
ghost use Rattle.lists.specs.Basics.{if};
ghost use Rattle.geometry.specs.Numbers.{max_features};
ghost use Rattle.geometry.specs.Slices.{axis_no};
ghost use Rattle.geometry_slices.specs.Questions.{size_of, Filled};
ghost use Rattle.geometry_lanes.specs.Lanes.{max_lanes, table_places, odd_of, side_in};
ghost use Rattle.geometry_lanes.specs.Lanes.{Bounded, Axes, Aligned, Falls, Weights, Gives, Sides, Owns, Ends};

use geometry::MAX_COORDINATE;
use geometry_lanes::MAX_LANES;
use geometry_slices::{HIGHS_FROM, REACHES_FROM, WEIGHTS_FROM};

// A stored coordinate and the one on the other side of the centre, twice.
const MIRRORED: u16 = 4 * MAX_COORDINATE;

// What the square of x has above that of x - 1.
fn odd(x: u16) -> u16
    requires { x ≤ 32767 }
    ensures { result ≡ odd_of x }
{
    (2 * x).saturating_sub(1)
}

fn axis_in(d: u16, i: u16) -> u16
    ensures { result ≡ axis_no d i }
{
    if i < d { i } else { i - d }
}

// The axis of each lane.
pub fn axes_of(d: usize, n: usize) -> [u16; MAX_LANES]
    requires { (d ≤ max_features) × (n ≤ max_lanes) }
    ensures { Axes d n result }
{
    let mut axes = [0u16; MAX_LANES];
    for i in 0..n {
        axes[i] = axis_in(d as u16, i as u16);
    }
    axes
}

fn side_fall(m: u16, j: u16, before: u16, after: u16) -> u16
    ensures { result ≡ if (ltb m j) before after }
{
    if m < j { before } else { after }
}

// What coordinate m falls by in each lane, but for its own axis.
fn fill_lanes(falls: &mut [u16], axes: &[u16], m: usize, n: usize, reach: u16)
    requires { (m < max_features) × (n ≤ max_lanes) × (reach ≤ 1001) × (length falls.old ≡ table_places)
        × (length axes.now ≡ max_lanes) }
    ensures { Filled (side_in axes.now m reach) (max_lanes * m) n falls.old falls.new }
{
    let before = odd(reach);
    let after = odd(reach.saturating_sub(1));
    let at = MAX_LANES * m;
    let place = m as u16;
    for i in 0..n {
        falls[at + i] = side_fall(place, axes[i], before, after);
    }
}

// What coordinate m falls by in each lane.
fn fill_fall(asked: &[u16], axes: &[u16], m: usize, n: usize, falls: &mut [u16])
    requires { Aligned asked.now axes.now n × (m < size_of asked.now) × Falls asked.now falls.old m }
    ensures { Falls asked.now falls.new (m + 1) }
{
    let d = asked.len() - REACHES_FROM;
    let own = MAX_LANES * m + m;
    fill_lanes(falls, axes, m, n, asked[REACHES_FROM + m]);
    falls[own] = odd(MAX_COORDINATE.saturating_sub(asked[HIGHS_FROM + m]));
    falls[own + d] = odd(asked[m].saturating_sub(MAX_COORDINATE));
}

// What each coordinate falls by in each lane.
pub fn fill_falls(asked: &[u16], axes: &[u16], n: usize, falls: &mut [u16])
    requires { Aligned asked.now axes.now n × Falls asked.now falls.old 0 }
    ensures { Falls asked.now falls.new (size_of asked.now) }
{
    let d = asked.len() - REACHES_FROM;
    for m in 0..d {
        fill_fall(asked, axes, m, n, falls);
    }
}

// The weight of each coordinate, in each lane.
pub fn fill_weights(asked: &[u16], n: usize, weights: &mut [u16])
    requires { Bounded asked.now × (n ≤ max_lanes) × (length weights.old ≡ table_places) }
    ensures { Weights asked.now weights.new n (size_of asked.now) }
{
    let d = asked.len() - REACHES_FROM;
    for m in 0..d {
        let at = MAX_LANES * m;
        weights[at..at + n].fill(asked[WEIGHTS_FROM + m]);
    }
}

// A number for each lane from its axis: of coordinate m for the pyramid below 0 and for the one above.
fn sides<F: Fn(usize) -> (u16, u16)>(d: usize, both: F) -> [u16; MAX_LANES]
    requires few { d ≤ max_features }
    requires callable { (m : ℕ) → m < d → F.pre both m }
    ensures { (p q : ℕ → ℕ) → Gives (F.post both) d p q → Sides p q d d result }
{
    let mut xs = [0u16; MAX_LANES];
    for m in 0..d {
        let (below, above) = both(m);
        xs[m] = below;
        xs[m + d] = above;
    }
    xs
}

// The weight of each lane's axis.
pub fn owns_of(asked: &[u16]) -> [u16; MAX_LANES]
    requires { Bounded asked.now }
    ensures { Owns asked.now result }
{
    sides(
        asked.len() - REACHES_FROM,
        |m| (asked[WEIGHTS_FROM + m], asked[WEIGHTS_FROM + m]),
    )
}

// Twice the far end of each lane's axis, towards the pyramid: below 0 the axis is mirrored.
pub fn ends_of(asked: &[u16]) -> [u16; MAX_LANES]
    requires { Bounded asked.now }
    ensures { Ends asked.now result }
{
    sides(
        asked.len() - REACHES_FROM,
        |m| (MIRRORED - 2 * asked[m], 2 * asked[HIGHS_FROM + m]),
    )
}

// Points: range test and conversion, pyramid and height, gaps and what they cost.
// A record holds each coordinate with 1,000 added (`point_of` reads it back), so everything here but the conversion is on unsigned numbers.
ghost use Rattle.std.specs.Prelude.{◌≡◌, true, max, ◌+◌, ◌*◌, ◌-◌, ◌<◌, ◌≤◌, nat_abs, leb, length};
ghost use Rattle.lists.specs.Basics.{if};
ghost use Rattle.geometry.specs.Numbers.{max_features, max_coordinate};
ghost use Rattle.geometry.specs.Points.{is_neg, height_of, axis_of, pyramid_of};
ghost use Rattle.geometry.specs.Stored.{coord_of, point_of, stored, slots_of, in_range};

use crate::{Height, MAX_COORDINATE, MAX_FEATURES, MAX_SIGNED, MIN_SIGNED, Pair, Pyramid};

// Whether a coordinate is in range.
fn within(c: i16) -> bool
    ensures { result ≡ leb (nat_abs c) max_coordinate }
{
    (MIN_SIGNED..=MAX_SIGNED).contains(&c)
}

// Whether every coordinate of a point is in range.
pub fn in_range(p: &[i16]) -> bool
    ensures { result ≡ in_range p.now }
{
    p.iter().all(|c| within(*c))
}

// A coordinate in range as it is stored.
fn slot(c: i16) -> u16
    requires { nat_abs c ≤ max_coordinate }
    ensures { result ≡ stored c }
{
    (c + MAX_SIGNED) as u16
}

// What a record holds of a point.
pub fn slots_of(p: &[i16]) -> [u16; MAX_FEATURES]
    requires { (length p.now ≤ max_features) × (in_range p.now ≡ true) }
    ensures { result ≡ slots_of p.now }
{
    let mut slots = [0u16; MAX_FEATURES];
    for (m, c) in p.iter().enumerate() {
        slots[m] = slot(*c);
    }
    slots
}

// The magnitude of a stored coordinate.
pub fn magnitude(x: u16) -> u16
    ensures { (result ≡ nat_abs (coord_of x)) × (result ≤ 64535) }
{
    x.abs_diff(MAX_COORDINATE)
}

// The magnitude of coordinate m, followed by how far m is below 15: the first of the coordinates of one magnitude has the greatest number.
fn lead(x: u16, m: usize) -> u32
    requires { m < max_features }
    ensures { (result ≡ nat_abs (coord_of x) * 16 + (15 - m)) × (result < 1048576) }
{
    let h = u32::from(magnitude(x));
    h * 16 + (15 - m as u32)
}

// The greatest lead: the height and the axis of a point, found in one pass without a branch.
fn top_lead(p: &[u16]) -> u32
    requires { (0 < length p.now) × (length p.now ≤ max_features) }
    ensures { (result ≡ height_of (point_of p.now) * 16 + (15 - axis_of (point_of p.now))) × (result < 1048576) }
{
    let mut top: u32 = 0;
    for (m, x) in p.iter().enumerate() {
        top = top.max(lead(*x, m));
    }
    top
}

// A stored coordinate with TO_CARRY added carries, by reaching 2^16, exactly if the coordinate is not below 0.
const CARRIES_AT: u32 = 65536;

const TO_CARRY: u32 = CARRIES_AT - MAX_COORDINATE as u32;

// The number of the pyramid on axis j of d, where the coordinate of that axis is stored as x: by arithmetic on its sign, without a branch.
pub fn pyramid_no(j: usize, d: usize, x: u16) -> u8
    requires { (j < d) × (d ≤ max_features) }
    ensures { result ≡ if (is_neg (coord_of x)) j (j + d) }
{
    let carry = (x as u32 + TO_CARRY) / CARRIES_AT;
    (j as u32 + d as u32 * carry) as u8
}

// The pyramid and height of a point.
pub fn pair_of(p: &[u16]) -> Pair
    requires { (0 < length p.now) × (length p.now ≤ max_features) }
    ensures { (result.pyramid.0 ≡ pyramid_of (point_of p.now)) × (result.height.0 ≡ height_of (point_of p.now)) }
{
    let top = top_lead(p);
    let h = (top / 16) as u16;
    let j = 15 - (top % 16) as usize;
    let i = pyramid_no(j, p.len(), p[j]);
    Pair {
        pyramid: Pyramid(i),
        height: Height(h),
    }
}

// What a gap costs: its square.
pub fn cost(gap: u16) -> u64
    ensures { (result ≡ gap * gap) × (result < 4294967296) }
{
    let g = u64::from(gap);
    g * g
}

// What a gap costs with a weight: the weight times its square.
pub fn weigh(weight: u16, gap: u16) -> u64
    ensures { (result ≡ weight * (gap * gap)) × (result < 281474976710656) }
{
    u64::from(weight) * cost(gap)
}

// The gap of a stored number from low ..= high.
pub fn gap(low: u16, high: u16, x: u16) -> u16
    ensures { result ≡ max (low - x) (x - high) }
{
    low.saturating_sub(x).max(x.saturating_sub(high))
}

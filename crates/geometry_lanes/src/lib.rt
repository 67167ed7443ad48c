// The least height at which each pyramid is nearest, of all pyramids at once: bisection in lanes, one for each pyramid, without a branch.
// From height h to h + 1 a distance falls by what its coordinates come down, and rises by what the axis goes on past its range: two
// weighted sums.
#![tactic(auto)]

pub mod bisection;
mod pulls;

use geometry::MAX_FEATURES;

// The most lanes: one for each pyramid. A table of the lanes has a row of so many places for each coordinate.
pub const MAX_LANES: usize = 2 * MAX_FEATURES;

pub const TABLE_PLACES: usize = MAX_LANES * MAX_FEATURES;

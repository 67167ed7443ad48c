// A question as the code holds it, and the least distance to the grid points of one pyramid and height.
#![tactic(auto)]

pub mod asked;
pub mod slices;
pub mod tables;

use geometry::MAX_FEATURES;

// A question's list has low ends from place 0 on, high ends, weights and reaches from these; the last part ends the list.
pub const HIGHS_FROM: usize = MAX_FEATURES;

pub const WEIGHTS_FROM: usize = 2 * MAX_FEATURES;

pub const REACHES_FROM: usize = 3 * MAX_FEATURES;

pub const ASKED_PLACES: usize = 4 * MAX_FEATURES;

// Its table near has the nearest height of each pyramid from place 0 on, and from this one a row for each axis.
const ROWS_FROM: usize = 2 * MAX_FEATURES;

// Behind the rows stands a flag, 1 only where they may be summed without weights.
// Kept: a number in near and no bool beside it, since slice_in, prepare and bound, which the documents name, have it there.
const UNWEIGHTED_AT: usize = ROWS_FROM + MAX_FEATURES * MAX_FEATURES;

pub const NEAR_PLACES: usize = UNWEIGHTED_AT + 1;

// Its table of whole pyramids has a place for each.
pub const WHOLE_PLACES: usize = 2 * MAX_FEATURES;

// Reaches below this have squares of 22 bits.
const SMALL_REACH: u16 = 2048;

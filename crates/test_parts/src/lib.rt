// What the test programs share: lines of output, coordinates by their places, and the leaves of an index in key order.
#![tactic(auto)]

pub mod answers;
pub mod listing;
pub mod places;
pub mod show;

// The set of all six stages.
pub const FULL_SET: u8 = 63;

// A question as one list.
ghost use Rattle.std.specs.Prelude.{◌≡◌, true, ◌≤◌, length};
ghost use Rattle.geometry.specs.Numbers.{max_features};
ghost use Rattle.geometry_slices.specs.Questions.{reach_at, LaidOut, Packed, NoWeight, Unweighted};

use crate::{ASKED_PLACES, HIGHS_FROM, REACHES_FROM, SMALL_REACH, WEIGHTS_FROM};
use geometry::MAX_COORDINATE;
use geometry::points::gap;

// How far out a stored range is: one more than its least magnitude.
fn reach_at(low: u16, high: u16) -> u16
    ensures { result ≡ reach_at low high }
{
    gap(low, high, MAX_COORDINATE) + 1
}

// A question as one list: low ends, high ends, weights, and how far out each range is; it is lent up to the last of these.
pub fn ask(low: &[u16], high: &[u16], weight: &[u16]) -> [u16; ASKED_PLACES]
    requires { (length low.now ≤ max_features) × (length high.now ≡ length low.now) × (length weight.now ≡ length low.now) }
    ensures { LaidOut low.now high.now weight.now result }
{
    let mut asked = [0u16; ASKED_PLACES];
    for m in 0..low.len() {
        asked[m] = low[m];
        asked[HIGHS_FROM + m] = high[m];
        asked[WEIGHTS_FROM + m] = weight[m];
        asked[REACHES_FROM + m] = reach_at(low[m], high[m]);
    }
    asked
}

// Whether a coordinate has no weight.
fn no_weight(weight: u16, reach: u16) -> bool
    ensures { (result ≡ true → NoWeight weight reach) × (NoWeight weight reach → result ≡ true) }
{
    weight == 1 && reach < SMALL_REACH
}

// Whether a question has none.
pub fn is_unweighted(asked: &[u16]) -> bool
    requires { Packed asked.now }
    ensures { (result ≡ true → Unweighted asked.now) × (Unweighted asked.now → result ≡ true) }
{
    let d = asked.len() - REACHES_FROM;
    let weights = &asked[WEIGHTS_FROM..WEIGHTS_FROM + d];
    let reaches = &asked[REACHES_FROM..];
    weights
        .iter()
        .zip(reaches.iter())
        .all(|(weight, reach)| no_weight(*weight, *reach))
}

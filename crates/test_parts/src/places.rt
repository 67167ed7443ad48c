// A place is a coordinate with 1,000 added: 0 to 2,000.
use geometry::MAX_COORDINATE;

// The greatest place.
pub const MAX_PLACE: u16 = 2 * MAX_COORDINATE;

// How many places there are.
const PLACES: u16 = MAX_PLACE + 1;
// The place of the coordinate 0.
const CENTRE: i16 = MAX_COORDINATE as i16;

// The coordinate of a place.
pub fn coordinate(place: u16) -> i16 {
    (place % PLACES) as i16 - CENTRE
}

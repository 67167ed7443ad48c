// The nearest heights of a question: by bisection in lanes, or at once where it has one coordinate.
ghost use Rattle.std.specs.Prelude.{◌≡◌, eqb, length};
ghost use Rattle.lists.specs.Basics.{if};
ghost use Rattle.geometry.specs.Slices.{Nearest};
ghost use Rattle.geometry_slices.specs.Questions.{size_of, asked_of, near_places};
ghost use Rattle.geometry_lanes.specs.Lanes.{max_lanes, table_places, Bounded, Blank};

use crate::lanes::{axes_of, ends_of, fill_falls, fill_weights, owns_of};
use geometry::MAX_COORDINATE;
use geometry_lanes::bisection::{Tables, bisect, lanes};
use geometry_lanes::{MAX_LANES, TABLE_PLACES};
use geometry_slices::{HIGHS_FROM, REACHES_FROM, WEIGHTS_FROM};

// The tables of the lanes, and the bisection over them.
fn search_lanes(asked: &[u16], falls: &mut [u16], weights: &mut [u16], heights: &mut [u16])
    requires { Bounded asked.now × Blank table_places falls.old × (length weights.old ≡ table_places)
        × Blank max_lanes heights.old }
    ensures { Nearest (asked_of asked.now) heights.new × (length heights.new ≡ max_lanes) }
{
    let d = asked.len() - REACHES_FROM;
    let n = lanes(d);
    let axes = axes_of(d, n);
    let owns = owns_of(asked);
    let ends = ends_of(asked);
    fill_falls(asked, &axes, n, falls);
    fill_weights(asked, n, weights);
    let tables = Tables {
        falls,
        weights,
        owns: &owns,
        ends: &ends,
    };
    bisect(asked, tables, heights);
}

// The nearest height of each pyramid.
fn nearest_lanes(asked: &[u16]) -> [u16; MAX_LANES]
    requires { Bounded asked.now }
    ensures { Nearest (asked_of asked.now) result × (length result ≡ max_lanes) }
{
    let mut falls = [0u16; TABLE_PLACES];
    let mut weights = [0u16; TABLE_PLACES];
    let mut heights = [0u16; MAX_LANES];
    search_lanes(asked, &mut falls, &mut weights, &mut heights);
    heights
}

// The height at which an axis first has its range, or 0 where each is as near.
fn reached(weight: u16, x: u16) -> u16
    ensures { result ≡ if (eqb weight 0) 0 x }
{
    if weight == 0 { 0 } else { x }
}

// The nearest heights of one coordinate.
fn nearest_one(asked: &[u16]) -> [u16; MAX_LANES]
    requires { Bounded asked.now × (size_of asked.now ≡ 1) }
    ensures { Nearest (asked_of asked.now) result × (length result ≡ max_lanes) }
{
    let mut heights = [0u16; MAX_LANES];
    let weight = asked[WEIGHTS_FROM];
    heights[0] = reached(weight, MAX_COORDINATE.saturating_sub(asked[HIGHS_FROM]));
    heights[1] = reached(weight, asked[0].saturating_sub(MAX_COORDINATE));
    heights
}

fn nearest_heights(asked: &[u16]) -> [u16; MAX_LANES]
    requires { Bounded asked.now }
    ensures { Nearest (asked_of asked.now) result × (length result ≡ max_lanes) }
{
    if asked.len() - REACHES_FROM == 1 {
        nearest_one(asked)
    } else {
        nearest_lanes(asked)
    }
}

// The nearest heights, in the first places of near.
pub fn fill_heights(asked: &[u16], near: &mut [u16])
    requires { Bounded asked.now × (length near.old ≡ near_places) }
    ensures { Nearest (asked_of asked.now) near.new × (length near.new ≡ near_places) }
{
    near[..MAX_LANES].copy_from_slice(&nearest_heights(asked));
}

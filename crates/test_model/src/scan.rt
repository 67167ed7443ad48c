// A full scan of the points, written apart from the index and its search: every distance, and all points in the order of their distances.
ghost use Rattle.std.specs.Prelude.{◌≡◌, length};

use crate::Wanted;
use crate::marks::Mark;
use crate::origin::Origin;
use crate::points::Point;
use std::cmp::Reverse;
use test_parts::FULL_SET;

// Farther than every point: the least distance where there is none.
pub const FAR: u64 = u64::MAX;

// A point that is wanted: the nearer first, among equals the newer, and of these the one of the lower identifier.
#[derive(Clone, Copy, PartialEq, Eq, PartialOrd, Ord)]
pub struct Near {
    pub distance: u64,
    pub stamp: Reverse<u32>,
    pub id: u32,
    pub stage: u8,
}

impl Near {
    pub fn mark(&self) -> Mark {
        Mark {
            stage: self.stage,
            stamp: self.stamp.0,
        }
    }
}

// Puts the points wanted into `nears`, in their order; places that are left over are before them.
pub fn scan(points: &[Point], origin: &Origin, wanted: &Wanted, nears: &mut [Option<Near>])
    requires { length nears.old ≡ length points.now }
{
    for (near, point) in nears.iter_mut().zip(points) {
        *near = point
            .mark
            .filter(|mark| wanted.takes(*mark))
            .map(|mark| Near {
                distance: origin.distance(&point.places),
                stamp: Reverse(mark.stamp),
                id: point.id,
                stage: mark.stage,
            });
    }
    nears.sort_unstable();
}

// How many points are live, with a stage that is one of the six.
pub fn live_count(points: &[Point]) -> usize {
    let all = Wanted {
        stages: FULL_SET,
        days: None,
    };
    points
        .iter()
        .filter(|point| point.mark.is_some_and(|mark| all.takes(mark)))
        .count()
}

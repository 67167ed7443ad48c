// The acts of a batch: its points are inserted and deleted through the index's acts, and their marks kept beside.
ghost use Rattle.std.specs.Prelude.{◌≤◌};

use index_refusals::Epoch;
use test_model::marks::Mark;
use test_model::numbers::leap;
use test_model::points::{Point, coordinates};

// Inserts a point with a mark. Returns whether that is carried out.
fn insert_point(index: &mut [u8], point: &Point, d: usize, mark: Mark) -> bool
    requires { d ≤ 16 }
{
    let epoch = Epoch {
        id: point.id,
        stage: mark.stage,
        stamp: mark.stamp,
    };
    index::insert(index, epoch, &coordinates(&point.places)[..d]).is_ok()
}

// Inserts those points that are not live, with stages and stamps drawn from a seed. Returns how many were refused.
pub fn insert_points(index: &mut [u8], points: &mut [Point], d: usize, seed: u64) -> u64
    requires { d ≤ 16 }
{
    let mut refused = 0;
    let mut n = seed;
    for point in points {
        n = leap(n);
        let mark = Mark::drawn(n);
        if point.mark.is_none() {
            if insert_point(index, point, d, mark) {
                point.mark = Some(mark);
            } else {
                refused += 1;
            }
        }
    }
    refused
}

// Deletes every third point, from `first` on, if it is live. Returns how many were refused.
pub fn delete_points(index: &mut [u8], points: &mut [Point], first: usize) -> u64 {
    let mut refused = 0;
    for p in (first..points.len()).step_by(3) {
        let point = &mut points[p];
        if point.mark.is_some() {
            if index::delete(index, point.id).is_ok() {
                point.mark = None;
            } else {
                refused += 1;
            }
        }
    }
    refused
}

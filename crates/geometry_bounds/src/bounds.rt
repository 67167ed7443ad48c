// The bound of a span for a question: the least distance to a grid point whose pair is in the span.
// Per question, `prepare` fills its tables. The distance is convex in the height, so over the heights of a span in one pyramid its nearest
// height, clamped to them, is nearest: one sum over the coordinates in the first and the last pyramid of a span, and one look into a table
// for each between them.
ghost use Rattle.std.specs.Prelude.{◌≡◌, min, ◌+◌, ◌-◌, ◌<◌, ◌≤◌, length};
ghost use Rattle.geometry.specs.Numbers.{max_features, max_coordinate};
ghost use Rattle.geometry.specs.Slices.{last_pyramid, least_in, bound_to, bound_of};
ghost use Rattle.geometry_slices.specs.Questions.{size_of, asked_of, near_places, whole_places, Heights};
ghost use Rattle.geometry_lanes.specs.Lanes.{Bounded};
ghost use Rattle.geometry_bounds.specs.Bounds.{Spanned, Preparable, Ready, least_between};

use geometry::{MAX_COORDINATE, Pair};
use geometry_heights::heights::fill_heights;
use geometry_slices::REACHES_FROM;
use geometry_slices::slices::{lowest, slice_in};
use geometry_slices::tables::{fill_rows, fill_whole};

// The heights and the rows of a question.
fn fill_near(asked: &[u16], near: &mut [u16])
    requires { Bounded asked.now × (length near.old ≡ near_places) }
    ensures { Heights asked.now near.new }
{
    fill_heights(asked, near);
    fill_rows(asked, near);
}

// The tables of a question: in near the height at which each of the 2d pyramids is nearest, the row of each axis and a flag, in whole the
// least distance to each pyramid.
pub fn prepare(asked: &[u16], near: &mut [u16], whole: &mut [u64])
    requires { Preparable asked.now near.old whole.old }
    ensures { Ready asked.now near.new whole.new }
{
    fill_near(asked, near);
    fill_whole(asked, near, whole);
}

// A question with its tables.
#[derive(Clone, Copy)]
struct Tabled<'a> {
    asked: &'a [u16],
    near: &'a [u16],
    whole: &'a [u64],
    ghost ready: { Ready asked.now near.now whole.now },
}

impl<'a> Tabled<'a> {
    // The least distance to pyramid i at heights lo ..= hi, or at lo where hi is below it. Where its nearest height is one of them, it is that
    // to the whole pyramid.
    fn least_in(&self, i: usize, lo: u16, hi: u16) -> u64
        requires { (i < size_of self.now.asked.now + size_of self.now.asked.now) × (lo ≤ max_coordinate) × (hi ≤ max_coordinate) }
        ensures { result ≡ least_in (asked_of self.now.asked.now) i lo hi }
    {
        let nearest = self.near[i];
        let h = nearest.min(hi).max(lo);
        if h == nearest && lowest(self.asked.len() - REACHES_FROM, i) <= h {
            self.whole[i]
        } else {
            slice_in(self.asked, self.near, i, h)
        }
    }

    // The bound of the span from height h1 of pyramid i1 to height h2 of pyramid i2.
    fn bound_between(&self, i1: usize, h1: u16, i2: usize, h2: u16) -> u64
        requires { Spanned (size_of self.now.asked.now) i1 h1 i2 h2 }
        ensures { result ≡ bound_to (asked_of self.now.asked.now) i1 h1 (i2 - i1) h2 }
    {
        if i2 <= i1 {
            return self.least_in(i1, h1, h2);
        }
        let first = self.least_in(i1, h1, MAX_COORDINATE);
        let best = between(self.whole, first, i1, i2);
        let low = lowest(self.asked.len() - REACHES_FROM, i2);
        best.min(self.least_in(i2, low, h2))
    }
}

// The pyramid number i, or the last one of d coordinates where i is above it.
fn last_pyramid(d: usize, i: u8) -> usize
    requires { (0 < d) × (d ≤ max_features) }
    ensures { result ≡ last_pyramid d i }
{
    usize::from(i).min(2 * d - 1)
}

// The least of a distance and those to the whole pyramids after pyramid i1 and before pyramid i2.
#[tactic(auto, using(crate::proofs::SpanBoundLaws::between_none))]
fn between(whole: &[u64], best: u64, i1: usize, i2: usize) -> u64
    requires { (i1 < i2) × (i2 < length whole.now) × (length whole.now ≡ whole_places) }
    ensures { result ≡ least_between whole.now best i1 (i2 - i1 - 1) }
{
    let mut least = best;
    for distance in &whole[i1 + 1..i2] {
        least = least.min(*distance);
    }
    least
}

// The bound of the span from one pair to another.
pub fn bound(asked: &[u16], near: &[u16], whole: &[u64], first: Pair, last: Pair) -> u64
    requires { Ready asked.now near.now whole.now }
    ensures { result ≡ bound_of (asked_of asked.now)
        first.pyramid.0 first.height.0 last.pyramid.0 last.height.0 }
{
    let d = asked.len() - REACHES_FROM;
    let i1 = last_pyramid(d, first.pyramid.0);
    let h1 = first.height.0.min(MAX_COORDINATE);
    let i2 = last_pyramid(d, last.pyramid.0);
    let h2 = last.height.0.min(MAX_COORDINATE);
    let tabled = Tabled { asked, near, whole };
    tabled.bound_between(i1, h1, i2, h2)
}

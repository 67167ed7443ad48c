// What a question is asked from: a point, and a weight for each of its d coordinates.
ghost use Rattle.std.specs.Prelude.{◌≤◌, ◌<◌, ℕ};

use geometry::MAX_FEATURES;

#[derive(Clone, Copy)]
pub struct Origin {
    pub places: [u16; MAX_FEATURES],
    pub weights: [u16; MAX_FEATURES],
    pub d: usize,
    pub ghost fits: { d ≤ 16 },
}

impl Origin {
    // The sum over the coordinates of the squared gap times the weight; `gap` gives the gap at coordinate m.
    pub fn weigh<F: Fn(usize) -> u16>(&self, gap: F) -> u64
        requires { (m : ℕ) → m < 16 → F.pre gap m }
    {
        let mut sum = 0;
        for m in 0..self.d {
            let g = u64::from(gap(m));
            sum += u64::from(self.weights[m]) * (g * g);
        }
        sum
    }

    // The distance of a point with these places.
    pub fn distance(&self, places: &[u16; MAX_FEATURES]) -> u64 {
        self.weigh(|m| self.places[m].abs_diff(places[m]))
    }
}

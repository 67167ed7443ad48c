// What coordinates pull in a lane: their weights times what their squares fall by.
ghost use Rattle.std.specs.Prelude.{◌≡◌, ℕ, ◌*◌, ◌<◌, ◌≤◌, length, get_or};
ghost use Rattle.geometry.specs.Numbers.{max_features};
ghost use Rattle.geometry_slices.specs.Questions.{sum_to};
ghost use Rattle.geometry_lanes.specs.Lanes.{max_lanes, table_places, pull_at, fall_at};

use crate::MAX_LANES;

pub fn pull(weight: u16, x: u16) -> u32
    ensures { (result ≡ weight * x) × (x ≤ 2001 → result ≤ 134217728) }
{
    u32::from(weight) * u32::from(x)
}

// What the first K coordinates pull in a lane, t being twice the height.
pub fn pulls<const K: usize>(falls: &[u16], weights: &[u16], at: usize, t: u16) -> u32
    requires { (K ≤ max_features) × (at < max_lanes) × (length falls.now ≡ table_places) × (length weights.now ≡ table_places)
        × ((x : ℕ) → get_or falls.now x 0 ≤ 2001) }
    ensures { result ≡ sum_to K (pull_at falls.now weights.now at t) }
{
    let mut sum = 0;
    for m in 0..K {
        let place = at + MAX_LANES * m;
        sum += pull(weights[place], falls[place].saturating_sub(t));
    }
    sum
}

// What they pull where each weight is 1. The sum of sixteen, at most 32,016, fits 16 bits.
pub fn falls<const K: usize>(falls: &[u16], at: usize, t: u16) -> u16
    requires { (K ≤ max_features) × (at < max_lanes) × (length falls.now ≡ table_places) × ((x : ℕ) → get_or falls.now x 0 ≤ 2001) }
    ensures { result ≡ sum_to K (fall_at falls.now at t) }
{
    let mut sum = 0;
    for m in 0..K {
        sum += falls[at + MAX_LANES * m].saturating_sub(t);
    }
    sum
}

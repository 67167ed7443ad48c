// The bisection: a lane holds the lower end of its interval, and each turn halves all intervals.
ghost use Rattle.std.specs.Prelude.{◌≡◌, true, ℕ, ◌+◌, ◌*◌, ◌<◌, ◌≤◌, length};
ghost use Rattle.geometry.specs.Numbers.{max_features, max_coordinate};
ghost use Rattle.geometry.specs.Slices.{Nearest};
ghost use Rattle.geometry_slices.specs.Questions.{size_of, asked_of, Filled};
ghost use Rattle.geometry_lanes.specs.Lanes.{max_lanes, settled_at, turned_at, summed_in, lanes_of, UnweightedLanes, Turnable, Sums, Movable, Halved, Lanes, Blank};

use crate::pulls::{self, pull, pulls};
use geometry::MAX_COORDINATE;
use geometry_slices::REACHES_FROM;
use geometry_slices::asked::is_unweighted;

// The tables of the lanes: for each coordinate a row of what falls in each lane and one of its weight, and for each lane its axis' weight and end.
#[derive(Clone, Copy)]
pub struct Tables<'a> {
    pub falls: &'a [u16],
    pub weights: &'a [u16],
    pub owns: &'a [u16],
    pub ends: &'a [u16],
}

// How many lanes d coordinates take.
pub fn lanes(d: usize) -> usize
    requires { d ≤ max_features }
    ensures { result ≡ lanes_of d }
{
    (d + 3) / 4 * 8
}

// A lane after a turn, t being twice the height looked at.
fn settled(sum: u32, weight: u16, end: u16, t: u16, step: u16, h: u16) -> u16
    requires { (t ≤ 2 * max_coordinate) × (h + step ≤ max_coordinate) }
    ensures { result ≡ settled_at sum weight end t step h }
{
    if sum <= pull(weight, (t + 2001).saturating_sub(end)) {
        h
    } else {
        h + step
    }
}

// One turn in n lanes, where `sum` gives what a lane's coordinates pull at twice a height.
fn halve_by<F: Fn(usize, u16) -> u32>(
    owns: &[u16],
    ends: &[u16],
    n: usize,
    step: u16,
    heights: &mut [u16],
    sum: F,
)
    requires turnable { Turnable owns.now ends.now n step heights.old }
    requires callable { (i t : ℕ) → i < n → F.pre sum i t }
    ensures { (g : ℕ → ℕ → ℕ) → Sums (F.post sum) n g → Filled (turned_at g owns.now ends.now step) 0 n heights.old heights.new }
{
    let twice = 2 * step - 2;
    for i in 0..n {
        let t = 2 * heights[i] + twice;
        heights[i] = settled(sum(i, t), owns[i], ends[i], t, step, heights[i]);
    }
}

// One turn of the bisection, in all lanes, which may be without weights. Those without sum 16 bits, of which twice as many stand in a register.
fn halve(tables: Tables, n: usize, unweighted: bool, step: u16, heights: &mut [u16])
    requires { Movable tables.falls.now tables.weights.now tables.owns.now tables.ends.now n step heights.old
        × (unweighted ≡ true → UnweightedLanes tables.falls.now tables.weights.now n) }
    ensures { Halved tables.entry.falls.now tables.entry.weights.now tables.entry.owns.now tables.entry.ends.now (summed_in unweighted n) step n
        heights.old heights.new }
{
    let Tables {
        falls,
        weights,
        owns,
        ends,
    } = tables;
    if n <= 8 {
        halve_by(
            owns,
            ends,
            n,
            step,
            heights,
            |i, t| pulls::<4>(falls, weights, i, t),
        );
    } else if unweighted {
        halve_by(
            owns,
            ends,
            n,
            step,
            heights,
            |i, t| u32::from(pulls::falls::<16>(falls, i, t)),
        );
    } else if n <= 16 {
        halve_by(
            owns,
            ends,
            n,
            step,
            heights,
            |i, t| pulls::<8>(falls, weights, i, t),
        );
    } else {
        halve_by(
            owns,
            ends,
            n,
            step,
            heights,
            |i, t| pulls::<16>(falls, weights, i, t),
        );
    }
}

// The bisection: intervals of 1,000, 500, 250 .. heights, whose lower ends stand in the lanes.
pub fn bisect(asked: &[u16], tables: Tables, heights: &mut [u16])
    requires { Lanes asked.now tables.falls.now tables.weights.now tables.owns.now tables.ends.now (lanes_of (size_of asked.now))
        × Blank max_lanes heights.old }
    ensures { Nearest (asked_of asked.now) heights.new × (length heights.new ≡ max_lanes) }
{
    let n = lanes(asked.len() - REACHES_FROM);
    let unweighted = is_unweighted(asked);
    let mut size = MAX_COORDINATE;
    // Kept: a while. The size is halved, by a half rounded down, until it is 0: no range or iterator counts so.
    while 0 < size {
        let half = size / 2;
        halve(tables, n, unweighted, size - half, heights);
        size = half;
    }
}

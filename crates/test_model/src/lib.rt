// What a question must give, worked out apart from the index and its search: points drawn by a generator of numbers, a full scan of them,
// the leaves whose bound is at most a distance, and an answer compared with these.
#![tactic(auto)]

use days::Days;
use geometry::MAX_FEATURES;
pub use leaves::{HEIGHTS, PAIRS};
use marks::Mark;
use points::{Kind, Point};

pub mod batches;
pub mod comparing;
pub mod days;
pub mod leaves;
pub mod marks;
pub mod numbers;
pub mod origin;
pub mod points;
pub mod scan;
pub mod seen;
pub mod weights;

// The points of a batch, at most.
pub const POINTS: usize = 1024;

// The points that a question is about: those of a set of stages and, where some are named, of some days.
#[derive(Clone, Copy)]
pub struct Wanted {
    pub stages: u8,
    pub days: Option<Days>,
}

// What is asked from a point: k, which points, and whether weights are carried.
#[derive(Clone, Copy)]
pub struct Asked {
    pub k: usize,
    pub wanted: Wanted,
    pub weighted: bool,
}

// A batch: the features, the points and how they lie, and how many questions are asked in each round.
#[derive(Clone, Copy)]
pub struct Batch {
    pub d: usize,
    pub points: usize,
    pub kind: Kind,
    pub questions: u32,
}

// The index asked, its leaves in key order, and the points inserted into it.
#[derive(Clone, Copy)]
pub struct Scene<'a> {
    pub index: &'a [u8],
    pub leaves: &'a [u32],
    pub points: &'a [Point],
}

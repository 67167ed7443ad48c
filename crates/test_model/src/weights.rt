// The weights of questions, by patterns.
ghost use Rattle.std.specs.Prelude.{◌≤◌};

use crate::batches::Way;
use crate::numbers::next;
use geometry::{MAX_FEATURES, MAX_WEIGHT};

#[derive(Clone, Copy)]
pub enum Pattern {
    Ones,
    Zeros,
    // All are 1,000.
    Greatest,
    // All but one are 0.
    Single,
    // From 0 to 3, so that many distances are equal.
    Small,
    // Half of them are 0.
    Sparse,
    // From 0 to 1,000.
    Drawn,
}

// How many weights there are: 0 to 1,000.
const WEIGHTS: u64 = MAX_WEIGHT as u64 + 1;

// Each pattern of weights in turn, drawn ones twice.
fn carried(i: u64) -> Pattern {
    match i % 8 {
        1 => Pattern::Ones,
        2 => Pattern::Zeros,
        3 => Pattern::Greatest,
        4 => Pattern::Single,
        5 => Pattern::Small,
        6 => Pattern::Sparse,
        _ => Pattern::Drawn,
    }
}

// The pattern of question i, if it carries weights.
pub fn asked_pattern(way: impl Into<Way>, i: u64) -> Option<Pattern> {
    match way.into() {
        Way::Plain => None,
        Way::Weighted => Some(carried(i)),
        Way::Dated if i % 2 == 0 => None,
        Way::Dated => Some(carried(i / 2)),
    }
}

impl Pattern {
    // The weight that a number draws; `only` says whether the coordinate is the one that counts.
    fn weight(self, only: bool, n: u64) -> u16
        ensures { result ≤ 1000 }
    {
        match self {
            Pattern::Ones => 1,
            Pattern::Zeros => 0,
            Pattern::Greatest => MAX_WEIGHT,
            Pattern::Single if only => (n % MAX_WEIGHT as u64) as u16 + 1,
            Pattern::Single => 0,
            Pattern::Small => (n % 4) as u16,
            Pattern::Sparse if n / WEIGHTS % 2 == 0 => 0,
            Pattern::Sparse | Pattern::Drawn => (n % WEIGHTS) as u16,
        }
    }

    // Draws the weights of a question; a single one is that of coordinate `only`.
    pub fn draw(self, only: usize, seed: u64) -> [u16; MAX_FEATURES] {
        let mut weights = [0; MAX_FEATURES];
        let mut n = seed;
        for (m, weight) in weights.iter_mut().enumerate() {
            n = next(n);
            *weight = self.weight(m == only, n);
        }
        weights
    }
}

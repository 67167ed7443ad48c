// The marks of points, drawn by numbers, and the points wanted. A question's set of stages is tried by halving.
ghost use Rattle.std.specs.Prelude.{◌≡◌};
ghost use Rattle.test_model.specs.Numbers.{mark_in, number_of_mark};

use crate::Wanted;
use crate::days::noon_stamp;
use crate::numbers::next;

// The stage and the stamp of a live point.
#[derive(Clone, Copy, PartialEq, Eq)]
pub struct Mark {
    pub stage: u8,
    pub stamp: u32,
}

// A mark as one odd number.
impl From<Mark> for u64 {
    ghost from_gives = { λ mark n. n ≡ number_of_mark mark };

    fn from(mark: Mark) -> u64 {
        512 * u64::from(mark.stamp) + 2 * u64::from(mark.stage) + 1
    }
}

// The first stamp of the later half.
const MIDDLE_STAMP: u32 = 2147483648;

// The stage that a number draws: each of the six, 2 most often and 5 once in 256 times.
fn drawn_stage(n: u64) -> u8 {
    match n / 1024 % 256 {
        0 => 5,
        1..8 => 4,
        8..32 => 1,
        32..80 => 3,
        80..144 => 0,
        _ => 2,
    }
}

// The stamp that a number draws: a fifth each of the first 20, of 20 in the middle and of the last 20, which many points share, of noons, and of all
// that are even; a number drawn has 31 bits.
fn drawn_stamp(n: u64) -> u32 {
    let shared = (n / 5 % 20) as u32;
    match n % 5 {
        0 => shared,
        1 => MIDDLE_STAMP - 10 + shared,
        2 => u32::MAX - shared,
        3 => noon_stamp(n / 5),
        _ => next(n) as u32 * 2,
    }
}

impl Mark {
    // The mark in a number; 0 is that of a point that is not live.
    pub fn numbered(n: u64) -> Option<Mark>
        ensures { result ≡ mark_in n }
    {
        match n {
            0 => None,
            _ => Some(Mark {
                stage: (n / 2 % 256) as u8,
                stamp: (n / 512 % 4294967296) as u32,
            }),
        }
    }

    // The mark that a number draws.
    pub fn drawn(n: u64) -> Mark {
        Mark {
            stage: drawn_stage(n),
            stamp: drawn_stamp(next(n)),
        }
    }
}

// Whether a set has the mark of a stage: what is left after halving it as often as the stage says is odd.
fn marks_stage(set: u8, stage: u8) -> bool {
    let mut rest = set;
    for _ in 0..stage {
        rest /= 2;
    }
    rest % 2 == 1
}

impl Wanted {
    // Whether a live point is wanted.
    pub fn takes(&self, mark: Mark) -> bool {
        marks_stage(self.stages, mark.stage) && self.days.is_none_or(|days| days.hold(mark.stamp))
    }
}

#[cfg(test)]
mod tests {
    use super::*;

    // A mark is read back from its number; the bits of a number beside its stage and its stamp are passed over.
    #[test]
    fn mark_in_any_number(rt: HostRuntime) {
        let mark = Mark { stage: 2, stamp: 9 };
        assert!(rt; Mark::numbered(0).is_none());
        for number in [u64::from(mark), 4612, 4613 + 2199023255552] {
            assert!(rt; Mark::numbered(number) == Some(mark), "read from {number}");
        }
    }
}

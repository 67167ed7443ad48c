// Batches of points: what is asked of each, and what is reported.
ghost use Rattle.std.specs.Prelude.{◌≡◌, ◌%◌, ◌<◌};
ghost use Rattle.test_model.specs.Numbers.{way_of};
ghost use Rattle.test_model.specs.declared.points.Kind.TheVariants.{Wide};

use crate::days::Days;
use crate::numbers::leap;
use crate::points::Kind;
use crate::seen::Seen;
use crate::{Batch, Wanted};
use search_rows::MAX_ROWS;
use test_parts::FULL_SET;

// The questions of a round are asked in three ways: without weights, with them, and with dates, every other time with weights.
#[derive(Clone, Copy)]
pub enum Way {
    Plain,
    Weighted,
    Dated,
}

// A number that is that of no way is taken as the one with weights.
impl From<u32> for Way {
    ghost from_gives = { λ n way. way ≡ way_of n };

    fn from(n: u32) -> Way {
        match n {
            0 => Way::Plain,
            2 => Way::Dated,
            _ => Way::Weighted,
        }
    }
}

// Every fourth question of a batch is asked from anywhere, the others as the batch lies.
pub fn asked_kind<K: Into<Kind>>(kind: K, seed: u64) -> Kind
    ensures anywhere { seed % 4 ≡ 0 → result ≡ Wide }
    ensures given { 0 < seed % 4 → K.converts kind result }
{
    let kind = kind.into();
    if seed % 4 == 0 { Kind::Wide } else { kind }
}

pub fn asked_k(seed: u64) -> usize {
    (seed / 1024 % MAX_ROWS as u64) as usize + 1
}

// The set of a question: any of 63 or a single stage, a quarter of the questions each, else all stages.
pub fn asked_stages(seed: u64) -> u8 {
    let drawn = seed / 262144;
    match seed / 65536 % 4 {
        0 => (drawn % 63) as u8 + 1,
        1 => 1 << (drawn % 6),
        _ => FULL_SET,
    }
}

// The points that a question is about.
pub fn asked_points(way: impl Into<Way>, seed: u64) -> Wanted {
    Wanted {
        stages: asked_stages(seed),
        days: match way.into() {
            Way::Dated => Some(Days::drawn(seed)),
            Way::Plain | Way::Weighted => None,
        },
    }
}

// Another number for each batch.
pub fn batch_seed(b: &Batch, seed: u64) -> u64 {
    let kind = u32::from(b.kind) % 16;
    leap(seed % 65536 + 100 * u64::from(kind) + (b.d % 32) as u64)
}

// A write that fails is passed over, here and below.
pub fn report(rt: &impl Print, b: &Batch, points: usize, refused: u64, seen: &Seen) {
    let Batch {
        d,
        kind,
        questions,
        ..
    } = *b;
    let space = match kind {
        Kind::Other(_) => "",
        _ => " ",
    };
    let _ = println!(rt;
        "full scan: d {d}{space}{kind} acts refused {refused} points {points} questions {questions} {seen}"
    );
}

// The same questions with weights; and n of them with ones and with none, how far the answers differ.
pub fn report_weighted(rt: &impl Print, b: &Batch, seen: &Seen, n: u32, differences: u64) {
    let questions = b.questions;
    let _ = println!(rt;
        "  with weights: questions {questions} {seen} ones beside none {n} differences {differences}"
    );
}

// The same questions with dates.
pub fn report_dated(rt: &impl Print, b: &Batch, seen: &Seen) {
    let questions = b.questions;
    let _ = println!(rt; "  with dates: questions {questions} {seen}");
}

#[cfg(test)]
mod tests {
    use super::*;
    use crate::weights::{Pattern, asked_pattern};

    // A number that is that of no kind is kept; questions are asked of its batch as of any other.
    #[test]
    fn kind_of_any_number(rt: HostRuntime) {
        let batch = Batch {
            d: 3,
            points: 1,
            kind: Kind::from(31),
            questions: 1,
        };
        assert_eq!(rt; u32::from(asked_kind(31u32, 1)), 31);
        assert_eq!(rt; u32::from(asked_kind(31u32, 8)), 0);
        assert_eq!(rt; batch_seed(&batch, 5), 1508 * 69621);
        assert_eq!(rt; batch.kind.draw(0, 5), Kind::Tied.draw(0, 5));
    }

    // Every fourth question is asked from anywhere, the others by the kind that is given.
    #[test]
    fn kind_of_a_question(rt: HostRuntime) {
        for seed in 1..4 {
            assert!(rt;
                matches!(asked_kind(Kind::Tied, seed), Kind::Tied),
                "seed {seed}"
            );
        }
        for seed in [0, 4, 8] {
            assert!(rt;
                matches!(asked_kind(Kind::Tied, seed), Kind::Wide),
                "seed {seed}"
            );
        }
    }

    // A number that is that of no way asks with weights, and without dates.
    #[test]
    fn way_of_any_number(rt: HostRuntime) {
        assert!(rt; asked_points(7u32, 5).days.is_none());
        assert!(rt; asked_points(2u32, 5).days.is_some());
        assert!(rt; matches!(asked_pattern(7u32, 3), Some(Pattern::Greatest)));
        assert!(rt; asked_pattern(0u32, 3).is_none());
    }
}

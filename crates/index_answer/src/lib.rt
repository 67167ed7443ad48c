// What a caller lends to a question: a run of rows, and a tally. Both are changed by thin functions; the rest works on values and shared slices.
#![tactic(auto)]

ghost use Rattle.std.specs.Prelude.{◌≡◌};
ghost use Rattle.index_answer.specs.Tallies.{counted};
ghost use Rattle.index_answer.specs.Filling.{filled};
ghost use Rattle.index_answer.specs.Delivered.{answer_of, Delivered};

use index_codes::Refusal;
use search_rows::{Row, row_of};

// A caller's tally (01): the questions carried out, and the leaves that they read.
#[repr(C)]
#[derive(Clone, Copy, Debug, PartialEq, Eq)]
pub struct Tally {
    pub questions: u32,
    pub leaves: u32,
}

// The tally after one more question that read some leaves; a count stays at the greatest number once it would pass it.
pub fn tallied(t: Tally, leaves: u32) -> Tally
    ensures { result ≡ counted t leaves }
{
    Tally {
        questions: t.questions.saturating_add(1),
        leaves: t.leaves.saturating_add(leaves),
    }
}

// The same for a tally that is lent.
pub fn tally_question(t: &mut Tally, leaves: u32)
    ensures { t.new ≡ counted t.old leaves }
{
    *t = tallied(*t, leaves);
}

// Fills the rows lent with the first `count` candidates, which two arrays hold, as far as these and the places for them go; rows past them keep their
// contents.
pub fn fill_rows(rows: &mut [Row], highs: &[u64], lows: &[u64], count: usize)
    ensures { rows.new ≡ filled highs.now lows.now count rows.old }
{
    let n = count.min(highs.len()).min(lows.len()).min(rows.len());
    for i in 0..n {
        rows[i] = row_of(highs[i], lows[i]);
    }
}

// What a question that is carried out finds: how many rows, and how many leaves were read for them.
#[derive(Clone, Copy, Debug, PartialEq, Eq)]
pub struct Found {
    pub count: usize,
    pub leaves: u32,
}

// What a question returns in C: its number, how many rows, and how many leaves were read.
#[repr(C)]
#[derive(Clone, Copy, Debug, PartialEq, Eq)]
pub struct Answer {
    pub code: u32,
    pub count: usize,
    pub leaves: u32,
}

// What a question that is refused returns: its number, 0 rows, 0 leaves.
pub fn refused(code: u32) -> Answer
    ensures { result ≡ record { code = code; count = 0; leaves = 0 } }
{
    Answer {
        code,
        count: 0,
        leaves: 0,
    }
}

impl From<Result<Found, Refusal>> for Answer {
    ghost from_gives = { λ outcome answer. answer ≡ answer_of outcome };

    fn from(outcome: Result<Found, Refusal>) -> Answer {
        match outcome {
            Ok(found) => Answer {
                code: 0,
                count: found.count,
                leaves: found.leaves,
            },
            Err(refusal) => refused(refusal.into()),
        }
    }
}

// Hands an answer over: the rows are filled with the candidates and the question is tallied; where it is refused both are left alone.
pub fn deliver(
    rows: &mut [Row],
    tally: &mut Tally,
    answer: Answer,
    highs: &[u64],
    lows: &[u64],
) -> Answer
    ensures { Delivered answer highs.now lows.now rows.old tally.old
        result rows.new tally.new }
{
    if answer.code == 0 {
        fill_rows(rows, highs, lows, answer.count);
        tally_question(tally, answer.leaves);
    }
    answer
}

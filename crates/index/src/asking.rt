// The question: the k nearest of a point, in lent rows, with the caller's tally.
ghost use Rattle.index_answer.specs.Delivered.{answer_of};
ghost use Rattle.index_query.specs.Asking.{question_of};
ghost use Rattle.index_trusted.specs.Questions.{Places};
ghost use Rattle.index.specs.Questions.{QuestionOutcome, Questioned};

use crate::Returned;
use crate::checking::refuse_index;
use index_answer::{Found, Tally, deliver};
use index_codes::Refusal;
use index_query::Criteria;
use search_rows::{MAX_ROWS, Row};

// A question before it is handed over, with so many rows lent: its rows, as upper and lower words, go to two arrays.
pub fn question_outcome(
    index: &[u8],
    point: &[i16],
    weights: &[u16],
    what: Criteria,
    lent: usize,
    highs: &mut [u64],
    lows: &mut [u64],
) -> Result<Found, Refusal>
    requires { Places highs.old lows.old }
    ensures { QuestionOutcome index.now (question_of point.now weights.now what) lent
        highs.new lows.new (answer_of result) }
{
    refuse_index(index)?;
    index_trusted::question_outcome(index, point, weights, what, lent, highs, lows)
}

// The question for the nearest records of a point: its rows go to those lent, and the caller's tally counts it.
pub fn question(
    index: &[u8],
    point: &[i16],
    weights: &[u16],
    what: Criteria,
    rows: &mut [Row],
    tally: &mut Tally,
) -> Result<Found, Refusal>
    ensures { Questioned index.now (question_of point.now weights.now what)
        rows.old tally.old (answer_of result) rows.new tally.new }
{
    let mut highs = [0u64; MAX_ROWS];
    let mut lows = [0u64; MAX_ROWS];
    let outcome = question_outcome(
        index,
        point,
        weights,
        what,
        rows.len(),
        &mut highs,
        &mut lows,
    );
    deliver(rows, tally, outcome.into(), &highs, &lows);
    outcome
}

// The question for callers that hold 64 rows and a tally by value.
pub fn ask(
    index: &[u8],
    point: &[i16],
    weights: &[u16],
    what: Criteria,
    rows: [Row; MAX_ROWS],
    tally: Tally,
) -> Returned
    ensures { Questioned index.now (question_of point.now weights.now what) rows tally result.answer result.rows result.tally }
{
    let mut kept = rows;
    let mut count = tally;
    let outcome = question(index, point, weights, what, &mut kept, &mut count);
    Returned {
        answer: outcome.into(),
        rows: kept,
        tally: count,
    }
}

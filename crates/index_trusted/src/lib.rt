// The acts without the check, for a caller that holds its index alone and has checked it once. On a sound index each does what the act does
// (`trusted_same`), and leaves a sound one. On any other bytes it ends without a fault, and what it returns and leaves is stated too:
// a level that no sound index has is refused with 2.
#![tactic(auto)]

ghost use Rattle.std.specs.Prelude.{Ok};
ghost use Rattle.index_codes.specs.Codes.{code_of};
ghost use Rattle.index_answer.specs.Delivered.{answer_of};
ghost use Rattle.index_query.specs.Asking.{question_of, Searchable};
ghost use Rattle.index_trusted.specs.Changes.{TrustedInserted, TrustedDeleted};
ghost use Rattle.index_trusted.specs.Questions.{Places, Answered, TrustedOutcome, TrustedQuestioned};

pub use index_answer::refused;
use index_answer::{Found, Tally, deliver};
use index_codes::Refusal;
use index_query::{Criteria, query_of};
use index_refusals::{Epoch, permitted, record_of, refuse_insert, refuse_question};
use pagestore::root_level;
use search::search;
use search_model::MAX_LEVEL;
use search_rows::{MAX_ROWS, Row};
use tree::find;

// Inserts an epoch with its point.
pub fn insert(index: &mut [u8], epoch: Epoch, point: &[i16]) -> Result<(), Refusal>
    ensures { TrustedInserted index.old epoch point.now (code_of result) index.new }
{
    refuse_insert(index, epoch, point)?;
    tree::insert(index, record_of(epoch, point));
    Ok(())
}

// Deletes the epoch of an identifier.
pub fn delete(index: &mut [u8], id: u32) -> Result<(), Refusal>
    ensures { TrustedDeleted index.old id (code_of result) index.new }
{
    if !permitted(index.len()) {
        return Err(Refusal::BadLength);
    }
    if root_level(index) > MAX_LEVEL {
        return Err(Refusal::Unsound);
    }
    if id == 0 {
        return Err(Refusal::ZeroId);
    }
    let x = find(index, id).ok_or(Refusal::NotLive)?;
    tree::delete(index, x);
    Ok(())
}

// What a question that is not refused finds: the rows and the count are the search's.
fn answered(
    index: &[u8],
    point: &[i16],
    weights: &[u16],
    what: Criteria,
    highs: &mut [u64],
    lows: &mut [u64],
) -> Found
    requires { Searchable (question_of point.now weights.now what) × Places highs.old lows.old }
    ensures { Answered index.now (question_of point.now weights.now what) highs.new lows.new (answer_of (Ok result)) }
{
    let seen = search(index, query_of(point, weights, what), highs, lows);
    Found {
        count: seen.rows,
        leaves: seen.leaves,
    }
}

// A question before it is handed over, with so many rows lent: its rows, as upper and lower words, go to two arrays.
pub fn question_outcome(
    index: &[u8],
    point: &[i16],
    weights: &[u16],
    what: Criteria,
    lent: usize,
    highs: &mut [u64],
    lows: &mut [u64],
) -> Result<Found, Refusal>
    requires { Places highs.old lows.old }
    ensures { TrustedOutcome index.now (question_of point.now weights.now what) lent
        highs.new lows.new (answer_of result) }
{
    refuse_question(index, point, weights, what, lent)?;
    Ok(answered(index, point, weights, what, highs, lows))
}

// A question whose rows go to those lent, and which the caller's tally counts.
pub fn question(
    index: &[u8],
    point: &[i16],
    weights: &[u16],
    what: Criteria,
    rows: &mut [Row],
    tally: &mut Tally,
) -> Result<Found, Refusal>
    ensures { TrustedQuestioned index.now (question_of point.now weights.now what)
        rows.old tally.old (answer_of result) rows.new tally.new }
{
    let mut highs = [0u64; MAX_ROWS];
    let mut lows = [0u64; MAX_ROWS];
    let outcome = question_outcome(
        index,
        point,
        weights,
        what,
        rows.len(),
        &mut highs,
        &mut lows,
    );
    deliver(rows, tally, outcome.into(), &highs, &lows);
    outcome
}

// The acts for programs in C and other languages (include/epoch_index.h, include/epoch_index_unchecked.h). Each is the act of `index`,
// `index_trusted` or `index_vouched` and promises what that promises.
#![tactic(auto)]

ghost use Rattle.index_query.specs.Asking.{question_of};
ghost use Rattle.index_trusted.specs.Changes.{TrustedInserted, TrustedDeleted};
ghost use Rattle.index_trusted.specs.Questions.{TrustedQuestioned};
ghost use Rattle.index_vouched.specs.Vouched.{VouchedInserted, VouchedDeleted};
ghost use Rattle.index.specs.Changes.{Made, Inserted, Deleted};
ghost use Rattle.index.specs.CheckAnswers.{CheckAnswer};
ghost use Rattle.index.specs.Questions.{Questioned};

use index::Checked;
use index_answer::{Answer, Tally};
use index_codes::code_of;
use index_query::Criteria;
use index_refusals::Epoch;
use search_rows::Row;

// Makes an empty index of some features in the bytes lent.
#[unsafe(no_mangle)]
pub extern "C" fn epoch_index_make(index: &mut [u8], features: u8) -> u32
    ensures { Made index.old features result index.new }
{
    code_of(index::make(index, features))
}

// Inserts an identifier with its stage, its stamp and its point.
#[unsafe(no_mangle)]
pub extern "C" fn epoch_index_insert(
    index: &mut [u8],
    id: u32,
    stage: u8,
    stamp: u32,
    point: &[i16],
) -> u32
    ensures { Inserted index.old (record { id = id; stage = stage; stamp = stamp }) point.now
        result index.new }
{
    let epoch = Epoch { id, stage, stamp };
    code_of(index::insert(index, epoch, point))
}

// Deletes the epoch of an identifier.
#[unsafe(no_mangle)]
pub extern "C" fn epoch_index_delete(index: &mut [u8], id: u32) -> u32
    ensures { Deleted index.old id result index.new }
{
    code_of(index::delete(index, id))
}

// Whether an index is sound. The page is written in each case: with 2 it is one at which soundness fails, else 0.
#[unsafe(no_mangle)]
pub extern "C" fn epoch_index_check(index: &[u8], page: &mut u32) -> u32
    ensures { CheckAnswer index.now (record { code = result; page = page.new }) }
{
    let checked = Checked::from(index::check(index));
    *page = checked.page;
    checked.code
}

// The question for the k nearest records of a point among those whose stage is in a set and whose stamp lies in its days: its rows go to those lent, and the
// caller's tally counts it.
#[unsafe(no_mangle)]
pub extern "C" fn epoch_index_ask(
    index: &[u8],
    point: &[i16],
    weights: &[u16],
    what: Criteria,
    rows: &mut [Row],
    tally: &mut Tally,
) -> Answer
    ensures { Questioned index.now (question_of point.now weights.now what)
        rows.old tally.old result rows.new tally.new }
{
    index::question(index, point, weights, what, rows, tally).into()
}

// Inserts an identifier with its stage, its stamp and its point, without the check.
#[unsafe(no_mangle)]
pub extern "C" fn epoch_index_trusted_insert(
    index: &mut [u8],
    id: u32,
    stage: u8,
    stamp: u32,
    point: &[i16],
) -> u32
    ensures { TrustedInserted index.old (record { id = id; stage = stage; stamp = stamp }) point.now
        result index.new }
{
    let epoch = Epoch { id, stage, stamp };
    code_of(index_trusted::insert(index, epoch, point))
}

// Deletes the epoch of an identifier, without the check.
#[unsafe(no_mangle)]
pub extern "C" fn epoch_index_trusted_delete(index: &mut [u8], id: u32) -> u32
    ensures { TrustedDeleted index.old id result index.new }
{
    code_of(index_trusted::delete(index, id))
}

// The question without the check.
#[unsafe(no_mangle)]
pub extern "C" fn epoch_index_trusted_ask(
    index: &[u8],
    point: &[i16],
    weights: &[u16],
    what: Criteria,
    rows: &mut [Row],
    tally: &mut Tally,
) -> Answer
    ensures { TrustedQuestioned index.now (question_of point.now weights.now what) rows.old
        tally.old result rows.new tally.new }
{
    index_trusted::question(index, point, weights, what, rows, tally).into()
}

// Inserts an identifier, which the caller vouches is not live, with its stage, its stamp and its point, without the check.
#[unsafe(no_mangle)]
pub extern "C" fn epoch_index_vouched_insert(
    index: &mut [u8],
    id: u32,
    stage: u8,
    stamp: u32,
    point: &[i16],
) -> u32
    ensures { VouchedInserted index.old (record { id = id; stage = stage; stamp = stamp }) point.now
        result index.new }
{
    let epoch = Epoch { id, stage, stamp };
    code_of(index_vouched::insert(index, epoch, point))
}

// Deletes the epoch of an identifier with its point, both told by the caller, without the check.
#[unsafe(no_mangle)]
pub extern "C" fn epoch_index_vouched_delete(index: &mut [u8], id: u32, point: &[i16]) -> u32
    ensures { VouchedDeleted index.old id point.now result index.new }
{
    code_of(index_vouched::delete(index, id, point))
}

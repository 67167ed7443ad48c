// The refusal table: why an act is refused, tested in its order. Of the bytes nothing is known here, and number 2 goes by the header's level
// alone.
#![tactic(auto)]

ghost use Rattle.std.specs.Prelude.{◌≡◌, true, ◌≤◌, ◌<◌, length};
ghost use Rattle.geometry.specs.Stored.{in_range};
ghost use Rattle.pagestore.specs.Store.{view_of, free_at};
ghost use Rattle.tree_model.specs.Sound.{Permitted};
ghost use Rattle.lists.specs.Basics.{All};
ghost use Rattle.geometry.specs.Numbers.{max_weight};
ghost use Rattle.std.specs.Option.{option_copied};
ghost use Rattle.index_codes.specs.Codes.{code_of};
ghost use Rattle.calendar.specs.Days.{days_of};
ghost use Rattle.index_query.specs.Asking.{weights_of, AsMany, Light, question_of};
ghost use Rattle.index_refusals.specs.Refusals.{First, make_rules, day_rules, record_of};
ghost use Rattle.lists.specs.Judges.{Decides};
ghost use Rattle.index_refusals.specs.Trusted.{Suits, trusted_number, trusted_point, weighing_rules, pair_rules, epoch_rules, room_rules, trusted_insert, trusted_question};

use calendar::{Dates, comes_before, in_calendar};
use geometry::points::slots_of;
use geometry::{MAX_FEATURES, MAX_WEIGHT};
use index_codes::Refusal;
use index_query::Criteria;
use pagestore::{
    MAX_PAGES, MAX_POINTS, MAX_STAGE, PAGE_SIZE, Record, features_of, free_count, fresh_count,
    fresh_page, in_range, page_count, root_level, total_records,
};
use search_model::{ALL_STAGES, MAX_LEVEL};
use search_rows::MAX_ROWS;
use tree::{find, pages_wanted};

// What an insert brings besides its point: the identifier, the stage, and the stamp, seconds since 1 January 2000 00:00 by the lab clock.
#[derive(Clone, Copy)]
pub struct Epoch {
    pub id: u32,
    pub stage: u8,
    pub stamp: u32,
}

// The fewest and the most bytes of an index.
const MIN_BYTES: usize = 2 * PAGE_SIZE;

const MAX_BYTES: usize = MAX_PAGES as usize * PAGE_SIZE;

// Whether this many bytes are 2 to 16,384 whole pages.
pub fn permitted(bytes: usize) -> bool
    ensures { Decides (Permitted bytes) result }
{
    (MIN_BYTES..=MAX_BYTES).contains(&bytes) && bytes % PAGE_SIZE == 0
}

// Whether a make is refused.
pub fn refuse_make(bytes: usize, features: u8) -> Result<(), Refusal>
    ensures { First (make_rules bytes features) (code_of result) }
{
    if !permitted(bytes) {
        return Err(Refusal::BadLength);
    }
    if !(1..=MAX_FEATURES).contains(&usize::from(features)) {
        return Err(Refusal::BadFeatures);
    }
    Ok(())
}

// Whether a point has as many coordinates as an index has features: 1 to 16.
fn suits(index: &[u8], point: &[i16]) -> bool
    ensures { Decides (Suits index.now point.now) result }
{
    (1..=MAX_FEATURES).contains(&point.len()) && point.len() == usize::from(features_of(index))
}

// The first of 1 to 3 that applies to a point, by the number of its coordinates.
fn refuse_number(index: &[u8], point: &[i16]) -> Result<(), Refusal>
    ensures { First (trusted_number index.now point.now) (code_of result) }
{
    if !permitted(index.len()) {
        return Err(Refusal::BadLength);
    }
    if root_level(index) > MAX_LEVEL {
        return Err(Refusal::Unsound);
    }
    if !suits(index, point) {
        return Err(Refusal::BadFeatures);
    }
    Ok(())
}

// The first of 1 to 4 that applies to a point.
fn refuse_point(index: &[u8], point: &[i16]) -> Result<(), Refusal>
    ensures { First (trusted_point index.now point.now) (code_of result) }
{
    refuse_number(index, point)?;
    if !geometry::points::in_range(point) {
        return Err(Refusal::BadCoordinate);
    }
    Ok(())
}

// Whether there are as many weights as an index has features, where any are carried.
fn as_many(index: &[u8], weights: Option<&[u16]>) -> bool
    ensures { Decides (AsMany (view_of index.now).d (weights_of (option_copied weights.entry))) result }
{
    match weights {
        Some(carried) => carried.len() == usize::from(features_of(index)),
        None => true,
    }
}

// Whether no weight is above 1,000.
fn are_light(weights: &[u16]) -> bool
    ensures { Decides (All (λ x. x ≤ max_weight) weights.now) result }
{
    weights.iter().all(|weight| *weight <= MAX_WEIGHT)
}

// The same, where any are carried.
fn light(weights: Option<&[u16]>) -> bool
    ensures { Decides (Light (weights_of (option_copied weights.entry))) result }
{
    match weights {
        Some(carried) => are_light(carried),
        None => true,
    }
}

// The first of 1 to 4 and 14 that applies to a point and the weights carried.
fn refuse_weighing(index: &[u8], point: &[i16], weights: Option<&[u16]>) -> Result<(), Refusal>
    ensures { First (weighing_rules index.now point.now (weights_of (option_copied weights.entry))) (code_of result) }
{
    refuse_number(index, point)?;
    if !as_many(index, weights) {
        return Err(Refusal::BadFeatures);
    }
    if !geometry::points::in_range(point) {
        return Err(Refusal::BadCoordinate);
    }
    if !light(weights) {
        return Err(Refusal::BadWeight);
    }
    Ok(())
}

// The first of 17 and 18 that applies to the dates, where they are given.
fn refuse_days(days: Option<Dates>) -> Result<(), Refusal>
    ensures { First (day_rules (days_of days)) (code_of result) }
{
    let Some(dates) = days else {
        return Ok(());
    };
    if !in_calendar(dates.first) || !in_calendar(dates.last) {
        return Err(Refusal::BadDate);
    }
    if comes_before(dates.last, dates.first) {
        return Err(Refusal::DatesReversed);
    }
    Ok(())
}

// Whether a question with some rows lent is refused.
pub fn refuse_question(
    index: &[u8],
    point: &[i16],
    weights: &[u16],
    what: Criteria,
    lent: usize,
) -> Result<(), Refusal>
    ensures { First (trusted_question index.now (question_of point.now weights.now what) lent) (code_of result) }
{
    refuse_weighing(index, point, what.weights(weights))?;
    if !(1..=MAX_ROWS).contains(&what.k) {
        return Err(Refusal::BadK);
    }
    if lent < what.k {
        return Err(Refusal::FewRows);
    }
    if !(1..=ALL_STAGES).contains(&what.stages) {
        return Err(Refusal::BadStageSet);
    }
    refuse_days(what.days())
}

// The record of an epoch and its point.
pub fn record_of(epoch: Epoch, point: &[i16]) -> Record
    requires { (length point.now ≤ 16) × (in_range point.now ≡ true) }
    ensures { result ≡ record_of epoch point.now }
{
    Record {
        id: epoch.id,
        stage: epoch.stage,
        stamp: epoch.stamp,
        coords: slots_of(point),
    }
}

// The first of 1 to 5 that applies to an identifier and its point.
pub fn refuse_pair(index: &[u8], id: u32, point: &[i16]) -> Result<(), Refusal>
    ensures { First (pair_rules index.now id point.now) (code_of result) }
{
    refuse_point(index, point)?;
    if id == 0 {
        return Err(Refusal::ZeroId);
    }
    Ok(())
}

// The first of 1 to 5 and 15 that applies to an epoch and its point.
pub fn refuse_epoch(index: &[u8], epoch: Epoch, point: &[i16]) -> Result<(), Refusal>
    ensures { First (epoch_rules index.now epoch point.now) (code_of result) }
{
    refuse_pair(index, epoch.id, point)?;
    if epoch.stage > MAX_STAGE {
        return Err(Refusal::BadStage);
    }
    Ok(())
}

// Whether fewer pages are free than are wanted. The chain of freed pages is followed only where the pages never used are too few.
fn too_few(index: &[u8], wanted: u32) -> bool
    ensures { Decides (length (free_at index.now) < wanted) result }
{
    fresh_count(index) < wanted && free_count(index) < wanted
}

// The first of 8 and 9 that applies to a record that may be inserted.
#[tactic(auto, using(crate::proofs::RuleLaws::total_view))]
pub fn refuse_room(index: &[u8], epoch: Epoch, point: &[i16]) -> Result<(), Refusal>
    requires { (length point.now ≤ 16) × (in_range point.now ≡ true) }
    ensures { First (room_rules index.now epoch point.now) (code_of result) }
{
    if total_records(index) >= MAX_POINTS {
        return Err(Refusal::Full);
    }
    if too_few(index, pages_wanted(index, record_of(epoch, point))) {
        return Err(Refusal::NoPages);
    }
    Ok(())
}

// Whether an insert is refused.
pub fn refuse_insert(index: &[u8], epoch: Epoch, point: &[i16]) -> Result<(), Refusal>
    ensures { First (trusted_insert index.now epoch point.now) (code_of result) }
{
    refuse_epoch(index, epoch, point)?;
    if find(index, epoch.id).is_some() {
        return Err(Refusal::AlreadyLive);
    }
    refuse_room(index, epoch, point)
}

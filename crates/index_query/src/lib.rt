// What a caller asks, as the search takes it; its definitions say when a question is answered.
#![tactic(auto)]

ghost use Rattle.std.specs.Prelude.{◌≡◌, ◌≤◌, length};
ghost use Rattle.std.specs.Option.{option_copied};
ghost use Rattle.calendar.specs.Days.{days_of, days_if};
ghost use Rattle.geometry_slices.specs.Questions.{LaidOut};
ghost use Rattle.index_query.specs.Asking.{weights_of, weights_if, AsMany, laid_weights, nearest_by, question_of, Searchable, QueryFor};

use calendar::{Date, Dates, window_of};
use geometry::MAX_FEATURES;
use geometry::points::slots_of;
use geometry_slices::asked::ask;
use search::Query;
use search_model::Choice;

// What is asked of a point. Kept: two flags stand beside their values, as C lays the struct out (include/epoch_index.h).
#[repr(C)]
#[derive(Clone, Copy)]
pub struct Criteria {
    pub k: usize, // how many of its nearest
    pub stages: u8, // of which stages: bit s for stage s
    pub weighted: bool, // whether weights are carried
    pub dated: bool, // whether recording days are named
    pub dates: Dates, // from which date to which
}

impl Criteria {
    // The weights lent, where any are carried.
    pub fn weights(self, lent: &[u16]) -> Option<&[u16]>
        ensures { weights_of (option_copied result) ≡ weights_if self.weighted lent.now }
    {
        if self.weighted { Some(lent) } else { None }
    }

    // The dates, where recording days are named.
    pub fn days(self) -> Option<Dates>
        ensures { days_of result ≡ days_if self.dated self.dates }
    {
        if self.dated { Some(self.dates) } else { None }
    }
}

// What is asked of a point without weights and without dates.
pub fn nearest_of(k: usize, stages: u8) -> Criteria
    ensures { result ≡ nearest_by k stages }
{
    let none = Date {
        year: 0,
        month: 0,
        day: 0,
    };
    Criteria {
        k,
        stages,
        weighted: false,
        dated: false,
        dates: Dates {
            first: none,
            last: none,
        },
    }
}

// The features of a point whose coordinates are as stored: each of the weight carried for it, or of weight 1.
fn features_by(q: &[u16], weights: Option<&[u16]>) -> [u16; 64]
    requires { (length q.now ≤ 16) × AsMany (length q.now) (weights_of (option_copied weights)) }
    ensures { LaidOut q.now q.now (laid_weights (length q.now) (weights_of (option_copied weights.entry))) result }
{
    let ones = [1u16; MAX_FEATURES];
    ask(q, q, weights.unwrap_or(&ones[..q.len()]))
}

// The query for a point, its weights and what else is asked.
pub fn query_of(point: &[i16], weights: &[u16], what: Criteria) -> Query
    requires { Searchable (question_of point.now weights.now what) }
    ensures { QueryFor (question_of point.now weights.now what) result }
{
    let d = point.len();
    let slots = slots_of(point);
    let features = features_by(&slots[..d], what.weights(weights));
    let choice = Choice {
        stages: what.stages,
        window: window_of(what.days()),
    };
    Query {
        features,
        d,
        k: what.k,
        choice,
    }
}

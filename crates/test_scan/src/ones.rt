// Questions with weights of ones and the same without weights: the same rows and the same count of leaves.
ghost use Rattle.std.specs.Prelude.{◌≤◌};
ghost use Rattle.test_model.specs.Comparing.{Fits};

use crate::asking::ask;
use geometry::MAX_FEATURES;
use index_query::{Criteria, nearest_of};
use search_rows::MAX_ROWS;
use test_model::Batch;
use test_model::batches::{asked_k, asked_kind, asked_stages, batch_seed};
use test_model::numbers::leap;
use test_model::origin::Origin;
use test_parts::answers::Reply;

// How many of the first n words differ.
fn words_differ(a: &[u64; MAX_ROWS], b: &[u64; MAX_ROWS], n: usize) -> u64
    ensures { result ≤ 64 }
{
    a.iter().zip(b).take(n).filter(|(x, y)| x != y).count() as u64
}

// How many words of two answers differ.
fn replies_differ(a: &Reply, b: &Reply) -> u64
    ensures { result ≤ 131 }
{
    let n = a.answer.count;
    u64::from(a.answer.code != b.answer.code)
        + u64::from(a.answer.count != b.answer.count)
        + u64::from(a.answer.leaves != b.answer.leaves)
        + words_differ(&a.highs, &b.highs, n)
        + words_differ(&a.lows, &b.lows, n)
}

// A question from an origin, asked by its weights and without weights. From one of no features both would be
// refused alike, and nothing compared: so it has one.
fn ask_twice(index: &[u8], origin: &Origin, seed: u64) -> u64
    requires { 1 ≤ origin.now.d }
    ensures { result ≤ 131 }
{
    let plain = nearest_of(asked_k(seed), asked_stages(seed));
    let weighted = Criteria {
        weighted: true,
        ..plain
    };
    let with_weights = ask(index, origin, &origin.weights[..origin.d], weighted);
    let with_none = ask(index, origin, &[], plain);
    replies_differ(&with_weights, &with_none)
}

// One question of a batch, with weights of ones and without weights.
fn ask_one(index: &[u8], b: &Batch, seed: u64) -> u64
    requires { Fits b.now }
    ensures { result ≤ 131 }
{
    let (places, _) = asked_kind(b.kind, seed).draw((seed % 5) as usize, seed);
    let origin = Origin {
        places,
        weights: [1; MAX_FEATURES],
        d: b.d,
    };
    ask_twice(index, &origin, seed)
}

// Asks n questions of a batch, each both ways. Returns how many words differ.
pub fn ones_and_none(index: &[u8], b: &Batch, n: u32, seed: u64) -> u64
    requires { Fits b.now }
{
    let mut drawn = batch_seed(b, seed);
    let mut differences = 0;
    for _ in 0..n {
        drawn = leap(drawn);
        differences += ask_one(index, b, drawn);
    }
    differences
}

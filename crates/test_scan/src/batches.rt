// Batches of points with many questions each, compared with the full scan.
ghost use Rattle.std.specs.Prelude.{◌≡◌, ◌≤◌, length};
ghost use Rattle.test_model.specs.Comparing.{Fits};

use crate::asking::ask_from;
use crate::filling::{delete_points, insert_points};
use crate::ones::ones_and_none;
use geometry::MAX_FEATURES;
use pagestore::PAGE_SIZE;
use test_model::batches::{
    Way, asked_k, asked_kind, asked_points, batch_seed, report, report_dated, report_weighted,
};
use test_model::numbers::leap;
use test_model::origin::Origin;
use test_model::points::{Kind, Point};
use test_model::scan::live_count;
use test_model::seen::Seen;
use test_model::weights::{Pattern, asked_pattern};
use test_model::{Asked, Batch, POINTS, Scene};
use test_parts::listing::leaves;

// The weights of a question, ones if it carries none.
fn weights_by(pattern: Option<Pattern>, d: usize, seed: u64) -> [u16; MAX_FEATURES]
    requires { 1 ≤ d }
{
    let only = (seed / 16 % d as u64) as usize;
    match pattern {
        Some(pattern) => pattern.draw(only, leap(seed / 2 + 1)),
        None => [1; MAX_FEATURES],
    }
}

// Asks question i of a batch in one of three ways.
fn ask_one(scene: &Scene, b: &Batch, way: Way, i: u64, seed: u64) -> Seen
    requires { Fits b.now × (length scene.now.points.now ≡ 1024) }
{
    let (places, _) = asked_kind(b.kind, seed).draw((seed % 5) as usize, seed);
    let pattern = asked_pattern(way, i);
    let origin = Origin {
        places,
        weights: weights_by(pattern, b.d, seed),
        d: b.d,
    };
    let asked = Asked {
        k: asked_k(seed),
        wanted: asked_points(way, seed),
        weighted: pattern.is_some(),
    };
    ask_from(scene, &origin, &asked, &mut [None; POINTS])
}

// Asks the questions of a batch in one way.
fn ask_all(scene: &Scene, b: &Batch, way: Way, seed: u64) -> Seen
    requires { Fits b.now × (length scene.now.points.now ≡ 1024) }
{
    let mut n = batch_seed(b, seed);
    let mut seen = Seen::default();
    for i in 0..u64::from(b.questions) {
        n = leap(n);
        seen.add(ask_one(scene, b, way, i, n));
    }
    seen
}

// Questions on an index as it is, after acts of which some were refused.
fn round(
    rt: &impl Print,
    index: &[u8],
    points: &[Point; POINTS],
    b: &Batch,
    refused: u64,
    seed: u64,
)
    requires { Fits b.now }
{
    let pages = leaves(index);
    let scene = Scene {
        index,
        leaves: pages.as_slice(),
        points,
    };
    let plain = ask_all(&scene, b, Way::Plain, seed);
    report(rt, b, live_count(points), refused, &plain);
    let weighted = ask_all(&scene, b, Way::Weighted, seed);
    let n = b.questions / 4;
    report_weighted(rt, b, &weighted, n, ones_and_none(index, b, n, seed));
    report_dated(rt, b, &ask_all(&scene, b, Way::Dated, seed));
}

// A batch in an index of 256 pages: all points are inserted, every third one is deleted, twice, and those deleted are inserted again.
fn run_batch(rt: &impl Print, b: &Batch)
    requires { Fits b.now }
{
    let mut index = [0u8; 256 * PAGE_SIZE];
    let mut points = b.kind.draw_all(12345);
    let _ = index::make(&mut index, b.d as u8);
    let refused = insert_points(&mut index, &mut points[..b.points], b.d, 12345);
    round(rt, &index, &points, b, refused, 12345);
    for (first, seed) in [(1, 777), (0, 4242)] {
        let refused = delete_points(&mut index, &mut points, first);
        round(rt, &index, &points, b, refused, seed);
    }
    let refused = insert_points(&mut index, &mut points[..b.points], b.d, 99);
    round(rt, &index, &points, b, refused, 99);
}

// Batches of d features, for each way in which points lie.
fn run_features(rt: &impl Print, d: usize, questions: u32)
    requires { (1 ≤ d) × (d ≤ 16) }
{
    let wide = Batch {
        d,
        points: 900,
        kind: Kind::Wide,
        questions,
    };
    run_batch(rt, &wide);
    let clustered = Batch {
        d,
        points: 700,
        kind: Kind::Clustered,
        questions,
    };
    run_batch(rt, &clustered);
    let tied = Batch {
        d,
        points: 500,
        kind: Kind::Tied,
        questions,
    };
    run_batch(rt, &tied);
}

pub fn run(rt: &impl Print) {
    run_features(rt, 1, 100);
    run_features(rt, 2, 100);
    run_features(rt, 3, 100);
    run_features(rt, 8, 50);
    run_features(rt, 16, 25);
}

// A question asked of the index, and compared with the full scan.
ghost use Rattle.std.specs.Prelude.{◌≡◌, ◌≤◌, length};

use index_answer::Answer;
use index_query::Criteria;
use search_rows::MAX_ROWS;
use test_model::comparing::compare;
use test_model::days::FIRST_DAY;
use test_model::origin::Origin;
use test_model::points::coordinates;
use test_model::scan::Near;
use test_model::seen::Seen;
use test_model::{Asked, Scene};
use test_parts::answers::Reply;

// The question for the nearest of the origin's point, by these weights if it carries them.
pub fn ask(index: &[u8], origin: &Origin, weights: &[u16], what: Criteria) -> Reply {
    let point = coordinates(&origin.places);
    let mut highs = [0; MAX_ROWS];
    let mut lows = [0; MAX_ROWS];
    let outcome = index::question_outcome(
        index,
        &point[..origin.d],
        weights,
        what,
        MAX_ROWS,
        &mut highs,
        &mut lows,
    );
    Reply {
        answer: Answer::from(outcome),
        highs,
        lows,
    }
}

// What a question asks for, as the index takes it.
fn criteria_of(asked: &Asked) -> Criteria {
    let days = asked.wanted.days;
    Criteria {
        k: asked.k,
        stages: asked.wanted.stages,
        weighted: asked.weighted,
        dated: days.is_some(),
        dates: days.unwrap_or(FIRST_DAY).dates(),
    }
}

// Asks one question; the scan goes by the origin's weights. `nears` has a place for each point.
pub fn ask_from(scene: &Scene, origin: &Origin, asked: &Asked, nears: &mut [Option<Near>]) -> Seen
    requires { (1 ≤ origin.now.d) × (length nears.old ≡ length scene.now.points.now) }
{
    let weights = &origin.weights[..origin.d];
    let Reply {
        answer,
        highs,
        lows,
    } = ask(scene.index, origin, weights, criteria_of(asked));
    compare(scene, origin, asked, answer, &highs, &lows, nears)
}

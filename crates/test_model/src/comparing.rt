// An answer compared with the full scan: its rows, one by one, the leaves that hold them, and the number of leaves read.
ghost use Rattle.std.specs.Prelude.{◌≡◌, ◌≤◌, length};

use crate::leaves::{holds, leaves_within};
use crate::origin::Origin;
use crate::scan::{Near, scan};
use crate::seen::Seen;
use crate::{Asked, Scene};
use index_answer::Answer;
use search_rows::{MAX_ROWS, Row, row_of};

// Whether a row is the one that the scan finds, and is held by the leaf at its position.
fn is_found(scene: &Scene, near: &Near, row: Row) -> bool {
    (near.distance, near.id, near.stamp.0) == (row.distance, row.id, row.stamp)
        && holds(scene, row.position, row.id, near.mark())
}

// Compares an answer with the scan, and its leaves with those to be read: all of them if there are fewer than k candidates, else those whose bound is
// at most the last distance. The rows are lent in two words each; `nears` has a place for each point.
pub fn compare(
    scene: &Scene,
    origin: &Origin,
    asked: &Asked,
    answer: Answer,
    highs: &[u64],
    lows: &[u64],
    nears: &mut [Option<Near>],
) -> Seen
    requires features { 1 ≤ origin.now.d }
    requires words { (64 ≤ length highs.now) × (64 ≤ length lows.now) }
    requires room { length nears.old ≡ length scene.now.points.now }
{
    let n = answer.count;
    scan(scene.points, origin, &asked.wanted, nears);
    let candidates = nears.iter().flatten().count();
    if answer.code != 0 || n != asked.k.min(candidates) || MAX_ROWS < n {
        return Seen::WRONG;
    }
    let words = highs.iter().zip(lows);
    let differences = nears
        .iter()
        .flatten()
        .zip(words)
        .take(n)
        .filter(|(near, (high, low))| !is_found(scene, near, row_of(**high, **low)))
        .count() as u64;
    let last = match n {
        0 => 0,
        _ => row_of(highs[n - 1], lows[n - 1]).distance,
    };
    let wanted = if candidates < asked.k {
        scene.leaves.len()
    } else {
        leaves_within(scene, origin, last)
    };
    Seen {
        rows: n as u64,
        leaves: u64::from(answer.leaves),
        differences: differences.saturating_add(u64::from(answer.leaves as usize != wanted)),
    }
}

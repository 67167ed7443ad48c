// The acts, each with what it prints into `out` from `at` on; each function returns where the output goes on.
ghost use Rattle.std.specs.Prelude.{◌≡◌, ◌+◌, ◌≤◌, min, length};
ghost use Rattle.index_query.specs.Asking.{nearest_of};
ghost use Rattle.index.specs.Acts.{insert, delete};
ghost use Rattle.index.specs.Questions.{QuestionOutcome};
ghost use Rattle.acts_output.specs.Puts.{most_printed, rows_lent, Puts};
ghost use Rattle.acts_step.specs.Steps.{asked_by, Acted, Replies};

use acts_output::{put_result, put_rows};
use acts_text::{Act, ActLine};
use index_answer::Answer;
use index_codes::code_of;
use index_query::nearest_of;
use index_refusals::Epoch;
use search_rows::MAX_ROWS;

// Inserts, and prints the line of it.
fn insert_line(
    index: &mut [u8],
    epoch: Epoch,
    point: &[i16],
    number: u64,
    out: &mut [u8],
    at: usize,
) -> usize
    requires { at + most_printed ≤ length out.old }
    ensures { Puts (Acted (insert epoch point.now) index.old number index.new)
        most_printed out.old out.new at result }
{
    let code = code_of(index::insert(index, epoch, point));
    put_result(out, at, number, code as u64, epoch.id as u64, 0, 0)
}

// Deletes, and prints the line of it.
fn delete_line(index: &mut [u8], id: u32, number: u64, out: &mut [u8], at: usize) -> usize
    requires { at + most_printed ≤ length out.old }
    ensures { Puts (Acted (delete id) index.old number index.new)
        most_printed out.old out.new at result }
{
    let code = code_of(index::delete(index, id));
    put_result(out, at, number, code as u64, id as u64, 0, 0)
}

// Asks without weights.
fn ask(
    index: &[u8],
    point: &[i16],
    k: usize,
    stages: u8,
    highs: &mut [u64],
    lows: &mut [u64],
) -> Answer
    requires { (rows_lent ≤ length highs.old) × (rows_lent ≤ length lows.old) }
    ensures { QuestionOutcome index.now (nearest_of point.now k stages) rows_lent
        highs.new lows.new result }
{
    Answer::from(index::question_outcome(
        index,
        point,
        &[],
        nearest_of(k, stages),
        MAX_ROWS,
        highs,
        lows,
    ))
}

// Asks, and prints a line for each row; with no rows one line with zeros.
fn question_line(
    index: &[u8],
    point: &[i16],
    k: usize,
    stages: u8,
    number: u64,
    out: &mut [u8],
    at: usize,
) -> usize
    requires { at + most_printed ≤ length out.old }
    ensures { Puts (Replies (nearest_of point.now k stages) index.now number)
        most_printed out.old out.new at result }
{
    let mut highs = [0u64; MAX_ROWS];
    let mut lows = [0u64; MAX_ROWS];
    let answer = ask(index, point, k, stages, &mut highs, &mut lows);
    if answer.count == 0 {
        return put_result(
            out,
            at,
            number,
            answer.code as u64,
            0,
            0,
            answer.leaves as u64,
        );
    }
    put_rows(
        out,
        at,
        number,
        answer.leaves as u64,
        &highs,
        &lows,
        answer.count,
    )
}

// A stage, or a set, as it is handed on: above 255 as 255, which is out of range too.
fn at_most_255(x: u32) -> u8
    ensures { result ≡ min x 255 }
{
    u8::try_from(x).unwrap_or(u8::MAX)
}

// The act that a readable line asks for.
#[tactic(auto, using(crate::proofs::ActLaws::does_insert, crate::proofs::ActLaws::does_delete, crate::proofs::ActLaws::does_question))]
pub fn do_act(index: &mut [u8], a: ActLine, number: u64, out: &mut [u8], at: usize) -> usize
    requires { (a.d ≤ 16) × (at + most_printed ≤ length out.old) }
    ensures { Puts (Acted (asked_by a) index.old number index.new)
        most_printed out.old out.new at result }
{
    let point = &a.coords[..a.d];
    let stage = at_most_255(a.stage);
    match a.act {
        Act::Insert => {
            let epoch = Epoch {
                id: a.id,
                stage,
                stamp: a.stamp,
            };
            insert_line(index, epoch, point, number, out, at)
        }
        Act::Delete => delete_line(index, a.id, number, out, at),
        Act::Ask => question_line(index, point, a.k as usize, stage, number, out, at),
    }
}

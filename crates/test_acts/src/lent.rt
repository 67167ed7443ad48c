// The public question, in rows and with a tally that the program lends.
use crate::common::{KEPT, LENT, NEAREST, NO_TALLY, Question};
use index::Returned;
use index_answer::Tally;
use search_rows::{MAX_ROWS, Row};
use test_parts::show::{Document, title};

// What 01 says of a question: its answer (number, rows and leaves), the tally after it, and the first rows.
#[derive(Clone, Copy)]
struct Said {
    answer: (u64, u64, u64),
    tally: (u64, u64),
    rows: &'static [Row],
}

// The question for the k nearest of a point.
fn try_lent(
    rt: &impl Print,
    index: &[u8],
    x: i16,
    k: usize,
    rows: [Row; MAX_ROWS],
    tally: Tally,
    said: &Said,
) -> Returned {
    let question = Question {
        point: &[x],
        k,
        ..NEAREST
    };
    let kept = question.ask(index, rows, tally);
    let (code, count, leaves) = said.answer;
    Document::Book.answer(rt, kept.answer, code, count, leaves);
    let (questions, leaves) = said.tally;
    Document::Book.tally(rt, kept.tally, questions, leaves);
    for (row, said) in kept.rows.iter().zip(said.rows) {
        Document::Book.row(rt, row, u64::from(said.id), said.distance);
        Document::Book.line(rt, "  its position", row.position, said.position);
        Document::Order.line(
            rt,
            "  its stamp",
            u64::from(row.stamp),
            u64::from(said.stamp),
        );
    }
    kept
}

const NINE: Row = Row {
    distance: 0,
    id: 9,
    stamp: 0,
    position: 0,
};

const EIGHT: Row = Row {
    distance: 1,
    id: 8,
    ..NINE
};

const SEVENTEEN: Row = Row {
    id: 17,
    position: 1,
    ..NINE
};

// Questions on the index of 1 to 17.
pub fn run(rt: &impl Print, index: &[u8]) {
    // 9 and 8 in the first two rows; the third keeps its contents.
    title(rt, "public question from 9, k 2");
    let first = Said {
        answer: (0, 2, 2),
        tally: (1, 2),
        rows: &[NINE, EIGHT, KEPT],
    };
    let kept = try_lent(rt, index, 9, 2, LENT, NO_TALLY, &first);
    // A refusal leaves rows and tally as they are.
    title(rt, "public question from 9, k 65");
    let refused = Said {
        answer: (10, 0, 0),
        tally: (1, 2),
        rows: &[NINE],
    };
    try_lent(rt, index, 9, 65, kept.rows, kept.tally, &refused);
    // 17 is in the second leaf; a full tally stays as it is.
    title(rt, "public question from 17, k 1, with a full tally");
    let full = Tally {
        questions: u32::MAX,
        leaves: u32::MAX,
    };
    let one = Said {
        answer: (0, 1, 1),
        tally: (4294967295, 4294967295),
        rows: &[SEVENTEEN, EIGHT],
    };
    try_lent(rt, index, 17, 1, kept.rows, full, &one);
}

// Weights (Q-1), through the acts: their refusals, and questions whose rows they order.
use crate::codes::damage;
use crate::common::{
    CASE, Case, INSERT, Insert, LENT, NEAREST, NO_TALLY, Question, SHORTEST, ask_cases, filled,
    reply_to,
};
use geometry::MAX_FEATURES;
use index::Returned;
use search_rows::MAX_ROWS;
use test_parts::show::{Document, title};

// Refusals, in the index with three points at the ends of the ranges

// Questions for one record from (x, 0): what they are called, x, the weights, and the number.
type FromX = (&'static str, i16, &'static [u16], u64);

const REFUSED: [FromX; 9] = [
    // 3 unless there are two weights.
    ("question with 0 weights", 0, &[], 3),
    ("question with 1 weight", 0, &[1], 3),
    ("question with 3 weights", 0, &[1, 1, 1], 3),
    ("question with 17 weights", 0, &[1; 17], 3),
    ("question with 0 weights, from 1001", 1001, &[], 3),
    ("question with 1 weight, from 1001", 1001, &[1], 3),
    ("question with 3 weights, from 1001", 1001, &[1, 1, 1], 3),
    ("question with 17 weights, from 1001", 1001, &[1; 17], 3),
    // Also where a weight is above 1,000.
    ("question with 3 weights of 1001", 0, &[1001, 1001, 1001], 3),
];

// And for the number of coordinates.
const ONE_COORDINATE: [Case; 1] = [Case {
    what: "question of 1 coordinate with 2 weights",
    question: Question {
        point: &[0],
        weights: Some(&[1, 1]),
        ..NEAREST
    },
    said: 3,
    ..CASE
}];

// 14 comes after 3 and 4.
const REFUSED_WEIGHTS: [FromX; 6] = [
    ("question with weights 1001 and 0", 0, &[1001, 0], 14),
    ("question with weights 0 and 1001", 0, &[0, 1001], 14),
    ("question with weights 65535", 0, &[65535, 65535], 14),
    ("question with weights 1000", 0, &[1000, 1000], 0),
    (
        "question with weights 1001 and 0, from 1001",
        1001,
        &[1001, 0],
        4,
    ),
    (
        "question with weights 1000, from -1001",
        -1001,
        &[1000, 1000],
        4,
    ),
];

const ABOVE: Question = Question {
    weights: Some(&[1000, 1001]),
    ..NEAREST
};

const FINE: Question = Question {
    weights: Some(&[1000, 0]),
    ..NEAREST
};

// 14 comes before 10, 11 and 16. With weights as they may be, the numbers after 14 are as they were.
const REFUSED_BESIDE: [Case; 7] = [
    Case {
        what: "weight 1001, k 0",
        question: Question { k: 0, ..ABOVE },
        said: 14,
        ..CASE
    },
    Case {
        what: "weight 1001, k 3, 2 rows lent",
        question: Question { k: 3, ..ABOVE },
        lent: 2,
        said: 14,
    },
    Case {
        what: "weight 1001, set 0",
        question: Question { stages: 0, ..ABOVE },
        said: 14,
        ..CASE
    },
    Case {
        what: "weight 1001, k 0, set 0",
        question: Question {
            k: 0,
            stages: 0,
            ..ABOVE
        },
        said: 14,
        ..CASE
    },
    Case {
        what: "weight 1000, k 0",
        question: Question { k: 0, ..FINE },
        said: 10,
        ..CASE
    },
    Case {
        what: "weight 1000, k 3, 2 rows lent",
        question: Question { k: 3, ..FINE },
        lent: 2,
        said: 11,
    },
    Case {
        what: "weight 1000, set 0",
        question: Question { stages: 0, ..FINE },
        said: 16,
        ..CASE
    },
];

// 1 and 2 come before them all.
const DAMAGED: [FromX; 1] = [("3 weights on a damaged index", 1001, &[1001, 0, 0], 2)];

const SHORT: [FromX; 1] = [("3 weights in 2047 bytes", 1001, &[1001, 0, 0], 1)];

// Weights that are not carried are disregarded.
const DISREGARDED: [(&str, &[u16]); 4] = [
    ("not carried: no weights", &[]),
    ("not carried: 2 weights of 0", &[0, 0]),
    ("not carried: 3 weights of 1000", &[1000, 1000, 1000]),
    ("not carried: 17 weights of 65535", &[65535; 17]),
];

fn ask_from(rt: &impl Print, index: &[u8], cases: &[FromX]) {
    for (what, x, weights, said) in cases {
        let question = Question {
            point: &[*x, 0],
            weights: Some(weights),
            ..NEAREST
        };
        let answer = question.reply(index, MAX_ROWS).answer;
        Document::Weights.line(rt, what, u64::from(answer.code), *said);
    }
}

// A refused question leaves rows and tally as they are.
fn refused_rows(rt: &impl Print, index: &[u8]) {
    let document = Document::Weights;
    title(rt, "question with weights 1001, in rows lent");
    let question = Question {
        weights: Some(&[1001, 1001]),
        ..NEAREST
    };
    let kept = question.ask(index, LENT, NO_TALLY);
    document.line(rt, "  code", u64::from(kept.answer.code), 14);
    document.line(rt, "  rows", kept.answer.count as u64, 0);
    Document::Book.tally(rt, kept.tally, 0, 0);
    document.row(rt, &kept.rows[0], 7, 7);
}

// The first row of a question without weights, with a slice of them handed over.
fn disregarded(rt: &impl Print, index: &[u8]) {
    for (what, weights) in &DISREGARDED {
        let reply = reply_to(index, NEAREST.point, weights, NEAREST.criteria(), MAX_ROWS);
        Document::Weights.line(rt, what, u64::from(reply.answer.code), 0);
        Document::Weights.row(rt, &reply.first(), 1, 1000000);
    }
}

fn refusals(rt: &impl Print, index: &[u8; SHORTEST]) {
    ask_from(rt, index, &REFUSED);
    ask_cases(rt, Document::Weights, index, &ONE_COORDINATE, None);
    ask_from(rt, index, &REFUSED_WEIGHTS);
    ask_cases(rt, Document::Weights, index, &REFUSED_BESIDE, None);
    refused_rows(rt, index);
    disregarded(rt, index);
    ask_from(rt, &damage(index), &DAMAGED);
    ask_from(rt, &[0; SHORTEST - 1], &SHORT);
}

// Rows, by hand

// Four points, two of them with stamp 20.
const POINTS: [Insert; 4] = [
    Insert {
        what: "insert of 1 at (3, 0), stamp 10",
        id: 1,
        stamp: 10,
        point: &[3, 0],
        ..INSERT
    },
    Insert {
        what: "insert of 2 at (0, 4), stamp 20",
        id: 2,
        stamp: 20,
        point: &[0, 4],
        ..INSERT
    },
    Insert {
        what: "insert of 3 at (2, 2), stamp 20",
        id: 3,
        stamp: 20,
        point: &[2, 2],
        ..INSERT
    },
    Insert {
        what: "insert of 4 at (-3, 1), stamp 5",
        id: 4,
        stamp: 5,
        point: &[-3, 1],
        ..INSERT
    },
];

// The four points in their order, with their distances.
type Order = [(u64, u64); 4];

const BY_ONES: Order = [(3, 8), (1, 9), (4, 10), (2, 16)];

// The four from 0: x and y count by their weights.
const ORDERS: [(u16, u16, Order); 7] = [
    (1, 1, BY_ONES),
    (1000, 1000, [(3, 8000), (1, 9000), (4, 10000), (2, 16000)]),
    // Weights that change who is nearest. Where one is 0, the other coordinate decides alone; 1 and 4 then tie, and 1 is newer.
    (2, 1, [(3, 12), (2, 16), (1, 18), (4, 19)]),
    (1, 3, [(1, 9), (4, 12), (3, 16), (2, 48)]),
    (3, 0, [(2, 0), (3, 12), (1, 27), (4, 27)]),
    (0, 5, [(1, 0), (4, 5), (3, 20), (2, 80)]),
    // Zeros: all tie, and the later stamp goes first, then the lower identifier.
    (0, 0, [(2, 0), (3, 0), (1, 0), (4, 0)]),
];

fn show_four(rt: &impl Print, kept: &Returned, said: &Order) {
    Document::Book.answer(rt, kept.answer, 0, 4, 1);
    Document::Book.tally(rt, kept.tally, 1, 1);
    Document::Weights.rows(rt, &kept.rows, said);
}

fn orders(rt: &impl Print, index: &[u8]) {
    let four = Question { k: 4, ..NEAREST };
    title(rt, "from 0, k 4, no weights");
    show_four(rt, &four.ask(index, LENT, NO_TALLY), &BY_ONES);
    for (x, y, said) in &ORDERS {
        let question = Question {
            weights: Some(&[*x, *y]),
            ..four
        };
        let _ = println!(rt; "from 0, k 4, weights {x} and {y}");
        show_four(rt, &question.ask(index, LENT, NO_TALLY), said);
    }
    title(rt, "from 0, k 1, weights 0 and 0");
    let nearest = Question {
        weights: Some(&[0, 0]),
        ..NEAREST
    };
    let kept = nearest.ask(index, LENT, NO_TALLY);
    Document::Book.answer(rt, kept.answer, 0, 1, 1);
    Document::Weights.rows(rt, &kept.rows, &[(2, 0), (7, 7)]);
}

// Leaves, on the index of 1 to 17

// Questions from 9: the weight and k, how many rows and leaves, and the identifier and the distance of row k. A weight of 0 has both leaves read for
// any k, and 1 is the first: all distances and stamps are 0.
const LEAVES: [(u16, usize, u64, u64, (u64, u64)); 5] = [
    (1000, 1, 1, 1, (9, 0)),
    (1000, 2, 2, 2, (8, 1000)),
    (0, 1, 1, 2, (1, 0)),
    (0, 17, 17, 2, (17, 0)),
    (0, 18, 17, 2, (7, 7)),
];

pub fn ask_two_leaves(rt: &impl Print, index: &[u8]) {
    let document = Document::Weights;
    for (weight, k, rows, leaves, (id, distance)) in &LEAVES {
        let question = Question {
            point: &[9],
            weights: Some(&[*weight]),
            k: *k,
            ..NEAREST
        };
        let _ = println!(rt; "from 9, k {k}, weight {weight}");
        let kept = question.ask(index, LENT, NO_TALLY);
        document.line(rt, "  rows", kept.answer.count as u64, *rows);
        document.line(rt, "  leaves read", u64::from(kept.answer.leaves), *leaves);
        if let Some(row) = kept.rows.iter().take(*k).last() {
            document.row(rt, row, *id, *distance);
        }
    }
}

// Sixteen features, from corner to corner

const FAR: [Insert; 1] = [Insert {
    what: "insert of 1 at -1000 in all",
    point: &[-1000; MAX_FEATURES],
    ..INSERT
}];

// The greatest distance, and one coordinate alone.
const CORNERS: [(&str, [u16; MAX_FEATURES], u64); 3] = [
    (
        "from 1000 in all, weights 1000",
        [1000; MAX_FEATURES],
        64000000000,
    ),
    (
        "from 1000 in all, the last weight 1000, the others 0",
        [0, 0, 0, 0, 0, 0, 0, 0, 0, 0, 0, 0, 0, 0, 0, 1000],
        4000000000,
    ),
    (
        "from 1000 in all, the first weight 1, the others 0",
        [1, 0, 0, 0, 0, 0, 0, 0, 0, 0, 0, 0, 0, 0, 0, 0],
        4000000,
    ),
];

fn corners(rt: &impl Print) {
    let index = filled(rt, "make in 2048 bytes, d 16", 16, &FAR);
    for (what, weights, distance) in &CORNERS {
        let question = Question {
            point: &[1000; MAX_FEATURES],
            weights: Some(weights),
            ..NEAREST
        };
        title(rt, what);
        let kept = question.ask(&index, LENT, NO_TALLY);
        Document::Book.answer(rt, kept.answer, 0, 1, 1);
        Document::Weights.row(rt, &kept.rows[0], 1, *distance);
    }
}

pub fn run(rt: &impl Print, index: &[u8; SHORTEST]) {
    title(rt, "weights");
    refusals(rt, index);
    orders(rt, &filled(rt, "make in 2048 bytes, d 2", 2, &POINTS));
    corners(rt);
}

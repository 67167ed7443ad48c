// Newest first among equals (Q-9), through the acts: points at one distance, in rows that the program lends.
use crate::common::{
    INSERT, Insert, LENT, NEAREST, NO_TALLY, Question, delete, filled, insert_all,
};
use test_parts::show::{Document, title};

// Five points at distance 25, two of them with stamp 1, and a farther one with the latest stamp.
const POINTS: [Insert; 6] = [
    Insert {
        what: "insert of 1 with stamp 0",
        point: &[3, -4],
        ..INSERT
    },
    Insert {
        what: "insert of 6 with stamp 1",
        id: 6,
        stamp: 1,
        point: &[3, 4],
        ..INSERT
    },
    Insert {
        what: "insert of 5 with stamp 1",
        id: 5,
        stamp: 1,
        point: &[4, -3],
        ..INSERT
    },
    Insert {
        what: "insert of 7 with stamp 2",
        id: 7,
        stamp: 2,
        point: &[-5, 0],
        ..INSERT
    },
    Insert {
        what: "insert of 9 with stamp 4294967295",
        id: 9,
        stamp: 4294967295,
        point: &[0, 5],
        ..INSERT
    },
    Insert {
        what: "insert of 8 with stamp 4294967295",
        id: 8,
        stamp: 4294967295,
        point: &[0, 6],
        ..INSERT
    },
];

// 9 comes back with the stamp of 5 and 6.
const AGAIN: [Insert; 1] = [Insert {
    what: "insert of 9 with stamp 1",
    id: 9,
    stamp: 1,
    point: &[0, 5],
    ..INSERT
}];

// The k nearest of the centre: how many rows come, and the identifier, the distance and the stamp of the first ones. A row past those that come keeps
// its contents.
fn ask(rt: &impl Print, index: &[u8], k: usize, count: u64, said: &[(u64, u64, u64)]) {
    let document = Document::Order;
    let question = Question { k, ..NEAREST };
    let _ = println!(rt; "from 0, k {k}");
    let kept = question.ask(index, LENT, NO_TALLY);
    Document::Book.answer(rt, kept.answer, 0, count, 1);
    for (row, (id, distance, stamp)) in kept.rows.iter().zip(said) {
        document.row(rt, row, *id, *distance);
        document.line(rt, "  its stamp", u64::from(row.stamp), *stamp);
    }
}

const ALL: [(u64, u64, u64); 7] = [
    (9, 25, 4294967295),
    (7, 25, 2),
    (5, 25, 1),
    (6, 25, 1),
    (1, 25, 0),
    (8, 36, 4294967295),
    (7, 7, 7),
];

// Of the five, k lets in the two latest.
const TWO: [(u64, u64, u64); 3] = [(9, 25, 4294967295), (7, 25, 2), (7, 7, 7)];

const FOUR: [(u64, u64, u64); 4] = [(7, 25, 2), (5, 25, 1), (6, 25, 1), (9, 25, 1)];

pub fn run(rt: &impl Print) {
    title(rt, "newest first among equals");
    let mut index = filled(rt, "make in 2048 bytes, d 2", 2, &POINTS);
    ask(rt, &index, 7, 6, &ALL);
    ask(rt, &index, 2, 2, &TWO);
    delete(rt, &mut index, "delete of 9", 9, 0);
    insert_all(rt, Document::Book, &mut index, &AGAIN);
    ask(rt, &index, 4, 4, &FOUR);
}

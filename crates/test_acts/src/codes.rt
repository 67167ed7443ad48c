// The refusals of 01, through the acts: lengths, features, coordinates, identifiers, k, rows lent and a damaged byte.
// An index of 16,777,216 bytes is larger than a program's stack: of the two greatest lengths `index_refusals::permitted` is asked, which every act
// asks first; the lengths 2,047 and 2,048 are lent.
ghost use Rattle.std.specs.Prelude.{◌≡◌, length};

use crate::common::{
    CASE, Case, INSERT, Insert, NEAREST, Question, SHORTEST, ask_cases, checked, delete,
    insert_all, make,
};
use pagestore::PAGE_SIZE;
use test_parts::show::{Document, title};

// Lengths, and 1 for those that are not permitted.
const LENGTHS: [(usize, u64); 4] = [(2047, 1), (2048, 0), (16777216, 0), (16778240, 1)];

// The features: 0 and 17 are refused. The index left has two.
const FEATURES: [(&str, u8, u64); 4] = [
    ("make in 2048 bytes, d 0", 0, 3),
    ("make in 2048 bytes, d 17", 17, 3),
    ("make in 2048 bytes, d 16", 16, 0),
    ("make in 2048 bytes, d 2", 2, 0),
];

const SHORT_INSERT: [Insert; 1] = [Insert {
    what: "insert in 2047 bytes",
    said: 1,
    ..INSERT
}];

// The ends of the ranges.
const ENDS: [Insert; 3] = [
    Insert {
        what: "insert at 1000",
        point: &[1000, 0],
        ..INSERT
    },
    Insert {
        what: "insert at -1000",
        id: 2,
        point: &[-1000, 0],
        ..INSERT
    },
    Insert {
        what: "insert of 4294967295",
        id: 4294967295,
        point: &[1000, 0],
        ..INSERT
    },
];

const REFUSED_INSERTS: [Insert; 8] = [
    Insert {
        what: "insert at 1001",
        id: 3,
        point: &[1001, 0],
        said: 4,
        ..INSERT
    },
    Insert {
        what: "insert at -1001",
        id: 3,
        point: &[-1001, 0],
        said: 4,
        ..INSERT
    },
    Insert {
        what: "insert of 0 at 1001",
        id: 0,
        point: &[1001, 0],
        said: 4,
        ..INSERT
    },
    Insert {
        what: "insert of 0",
        id: 0,
        point: &[5, 0],
        said: 5,
        ..INSERT
    },
    Insert {
        what: "insert of 1 again",
        point: &[5, 0],
        said: 6,
        ..INSERT
    },
    Insert {
        what: "insert of 4294967295 again",
        id: 4294967295,
        point: &[5, 0],
        said: 6,
        ..INSERT
    },
    Insert {
        what: "insert of 3 coordinates",
        id: 3,
        point: &[0, 0, 0],
        said: 3,
        ..INSERT
    },
    Insert {
        what: "insert of 1 coordinate",
        id: 3,
        point: &[0],
        said: 3,
        ..INSERT
    },
];

const DAMAGED_INSERT: [Insert; 1] = [Insert {
    what: "insert on a damaged index",
    id: 9,
    said: 2,
    ..INSERT
}];

const SHORT_QUESTION: [Case; 1] = [Case {
    what: "question in 2047 bytes",
    said: 1,
    ..CASE
}];

const REFUSED_QUESTIONS: [Case; 7] = [
    Case {
        what: "question with k 0",
        question: Question { k: 0, ..NEAREST },
        said: 10,
        ..CASE
    },
    Case {
        what: "question with k 65",
        question: Question { k: 65, ..NEAREST },
        lent: 100,
        said: 10,
    },
    Case {
        what: "question with k 65, no row lent",
        question: Question { k: 65, ..NEAREST },
        lent: 0,
        said: 10,
    },
    Case {
        what: "question with k 3, 2 rows lent",
        question: Question { k: 3, ..NEAREST },
        lent: 2,
        said: 11,
    },
    Case {
        what: "question from 1001, k 0",
        question: Question {
            point: &[1001, 0],
            k: 0,
            ..NEAREST
        },
        lent: 0,
        said: 4,
    },
    Case {
        what: "question from -1001",
        question: Question {
            point: &[-1001, 0],
            ..NEAREST
        },
        said: 4,
        ..CASE
    },
    Case {
        what: "question of 1 coordinate",
        question: Question {
            point: &[0],
            k: 0,
            ..NEAREST
        },
        lent: 0,
        said: 3,
    },
];

const DAMAGED_QUESTION: [Case; 1] = [Case {
    what: "question on a damaged index",
    said: 2,
    ..CASE
}];

fn show_permitted(rt: &impl Print) {
    for (bytes, said) in &LENGTHS {
        let refused = !index_refusals::permitted(*bytes);
        let _ = print!(rt; "length {bytes}");
        Document::Book.line(rt, "", u64::from(refused), *said);
    }
}

// The five acts in bytes of a length that is not permitted.
fn short(rt: &impl Print) {
    let mut index = [0u8; SHORTEST - 1];
    make(rt, &mut index, "make in 2047 bytes", 2, 1);
    insert_all(rt, Document::Book, &mut index, &SHORT_INSERT);
    delete(rt, &mut index, "delete in 2047 bytes", 1, 1);
    ask_cases(rt, Document::Book, &index, &SHORT_QUESTION, None);
    Document::Book.line(rt, "check in 2047 bytes", checked(&index).0, 1);
}

// A question with as many rows lent as it asks for.
fn show_question(rt: &impl Print, index: &[u8], x: i16, k: usize, rows: u64, leaves: u64) {
    let question = Question {
        point: &[x, 0],
        k,
        ..NEAREST
    };
    Document::Book.answer(rt, question.reply(index, k).answer, 0, rows, leaves);
}

// How many bytes of two runs differ.
pub fn changed(a: &[u8], b: &[u8]) -> u64
    requires { length a.now ≡ length b.now }
{
    a.iter().zip(b).filter(|(x, y)| x != y).count() as u64
}

// The index with the count of its root leaf set to 17.
pub fn damage(index: &[u8; SHORTEST]) -> [u8; SHORTEST] {
    let mut damaged = *index;
    damaged[PAGE_SIZE + 1] = 17;
    damaged
}

fn damaged(rt: &impl Print, index: &[u8; SHORTEST]) {
    let mut index = damage(index);
    insert_all(rt, Document::Book, &mut index, &DAMAGED_INSERT);
    delete(rt, &mut index, "delete on a damaged index", 1, 2);
    ask_cases(rt, Document::Book, &index, &DAMAGED_QUESTION, None);
    let (number, page) = checked(&index);
    Document::Book.line(rt, "check of a damaged index", number, 2);
    Document::Book.line(rt, "  page", page, 1);
}

// The index left has the three points at the ends of the ranges.
pub fn run(rt: &impl Print) -> [u8; SHORTEST] {
    title(rt, "lengths and refusals");
    show_permitted(rt);
    short(rt);
    let mut index = [0; SHORTEST];
    for (what, d, said) in &FEATURES {
        make(rt, &mut index, what, *d, *said);
    }
    Document::Book.line(rt, "check", checked(&index).0, 0);
    title(rt, "question on the empty index, k 64");
    show_question(rt, &index, 0, 64, 0, 0);
    insert_all(rt, Document::Book, &mut index, &ENDS);
    let before = index;
    insert_all(rt, Document::Book, &mut index, &REFUSED_INSERTS);
    delete(rt, &mut index, "delete of 0", 0, 5);
    delete(rt, &mut index, "delete of 3", 3, 7);
    ask_cases(rt, Document::Book, &index, &REFUSED_QUESTIONS, None);
    title(rt, "question from (1000, 0), k 2, 2 rows lent");
    show_question(rt, &index, 1000, 2, 2, 1);
    Document::Book.line(
        rt,
        "bytes changed by these refusals",
        changed(&before, &index),
        0,
    );
    damaged(rt, &index);
    index
}

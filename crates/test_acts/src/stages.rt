// Stages, sets of stages and stamps (Q-2), through the acts: their refusals, and questions for some stages.
use crate::codes::changed;
use crate::common::{
    CASE, Case, INSERT, Insert, NEAREST, Question, SHORTEST, ask_cases, insert_all,
};
use search_rows::MAX_ROWS;
use test_parts::show::{Document, title};

// An insert at the centre, with the greatest stamp.
const LATEST: Insert = Insert {
    stamp: 4294967295,
    ..INSERT
};

const FIRST: [Insert; 1] = [Insert {
    what: "insert of 4 with stage 5 and stamp 4294967295",
    id: 4,
    stage: 5,
    ..LATEST
}];

// 15 comes after 5 and before 6.
const REFUSED_STAGES: [Insert; 5] = [
    Insert {
        what: "insert of 3 with stage 6",
        id: 3,
        stage: 6,
        said: 15,
        ..LATEST
    },
    Insert {
        what: "insert of 3 with stage 255",
        id: 3,
        stage: 255,
        said: 15,
        ..LATEST
    },
    Insert {
        what: "insert of 0 with stage 6",
        id: 0,
        stage: 6,
        said: 5,
        ..LATEST
    },
    Insert {
        what: "insert of 1 again with stage 6",
        id: 1,
        stage: 6,
        said: 15,
        ..LATEST
    },
    Insert {
        what: "insert of 1 again with stage 5",
        id: 1,
        stage: 5,
        said: 6,
        ..LATEST
    },
];

// 16 comes after 10 and 11.
const REFUSED_SETS: [Case; 5] = [
    Case {
        what: "question with set 0",
        question: Question {
            stages: 0,
            ..NEAREST
        },
        said: 16,
        ..CASE
    },
    Case {
        what: "question with set 64",
        question: Question {
            stages: 64,
            ..NEAREST
        },
        said: 16,
        ..CASE
    },
    Case {
        what: "question with set 255",
        question: Question {
            stages: 255,
            ..NEAREST
        },
        said: 16,
        ..CASE
    },
    Case {
        what: "question with set 0, k 0",
        question: Question {
            k: 0,
            stages: 0,
            ..NEAREST
        },
        said: 10,
        ..CASE
    },
    Case {
        what: "question with set 0, k 3, 2 rows lent",
        question: Question {
            k: 3,
            stages: 0,
            ..NEAREST
        },
        lent: 2,
        said: 11,
    },
];

// A question that reads some leaves, and the identifier and the distance of its one row, if it has one.
#[derive(Clone, Copy)]
struct Asked {
    what: &'static str,
    question: Question<'static>,
    leaves: u64,
    first: Option<(u64, u64)>,
}

const CORNER: Question = Question {
    point: &[1000, 0],
    stages: 32,
    ..NEAREST
};

// Stage 5 alone: one record, also where two are asked for. All stages but 5: the record at the centre is passed over. Then a stage that no record
// has, on the root leaf: all leaves that hold records are read.
const SOME_STAGES: [Asked; 4] = [
    Asked {
        what: "from 1000, k 1, stage 5",
        question: CORNER,
        leaves: 1,
        first: Some((4, 1000000)),
    },
    Asked {
        what: "from 1000, k 2, stage 5",
        question: Question { k: 2, ..CORNER },
        leaves: 1,
        first: Some((4, 1000000)),
    },
    Asked {
        what: "from 0, k 1, stages 0 to 4",
        question: Question {
            stages: 31,
            ..NEAREST
        },
        leaves: 1,
        first: Some((1, 1000000)),
    },
    Asked {
        what: "from 0, k 1, stage 1",
        question: Question {
            stages: 2,
            ..NEAREST
        },
        leaves: 1,
        first: None,
    },
];

const MISSING_STAGE: [Asked; 1] = [Asked {
    what: "from 0, k 1, stage 1",
    question: Question {
        point: &[0],
        stages: 2,
        ..NEAREST
    },
    leaves: 2,
    first: None,
}];

fn ask_all(rt: &impl Print, index: &[u8], asked: &[Asked]) {
    let document = Document::Stages;
    for case in asked {
        title(rt, case.what);
        let reply = case.question.reply(index, MAX_ROWS);
        document.answer(
            rt,
            reply.answer,
            0,
            u64::from(case.first.is_some()),
            case.leaves,
        );
        if let Some((id, distance)) = case.first {
            let row = reply.first();
            document.line(rt, "  identifier of the first", u64::from(row.id), id);
            document.line(rt, "  its distance", row.distance, distance);
        }
    }
}

// On the index of 1 to 17, whose records have stage 0.
pub fn ask_two_leaves(rt: &impl Print, index: &[u8]) {
    ask_all(rt, index, &MISSING_STAGE);
}

// On the index with three points at the ends of the ranges.
pub fn run(rt: &impl Print, index: &[u8; SHORTEST]) {
    title(rt, "stages and sets");
    let mut index = *index;
    insert_all(rt, Document::Stages, &mut index, &FIRST);
    let before = index;
    insert_all(rt, Document::Stages, &mut index, &REFUSED_STAGES);
    ask_cases(rt, Document::Stages, &index, &REFUSED_SETS, None);
    let differ = changed(&before, &index);
    Document::Stages.line(rt, "bytes changed by these refusals", differ, 0);
    ask_all(rt, &index, &SOME_STAGES);
}

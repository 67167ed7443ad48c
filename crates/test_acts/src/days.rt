// Recording days (Q-4), through the acts: questions that dates narrow, on indexes of 2,048 bytes and of two leaves.
use crate::common::{LENT, NEAREST, NO_TALLY, Question, SHORTEST, make, number_of};
use crate::dates::{EARLIEST, LATEST, Span, on};
use crate::upward::fill;
use index::Returned;
use index_refusals::Epoch;
use pagestore::PAGE_SIZE;
use test_parts::show::{Document, title};

// Stamps at the ends of days: 13 and 14 are of 1 January 2000, 15 is of the day after, 16 of 31 December 2099; the others are of none.
// The identifiers from 11 on.
const ENDS: [u32; 8] = [
    0, 43199, 43200, 129599, 129600, 3155803199, 3155803200, 4294967295,
];

// 21 and 22 are of one night, begun at ten in the evening of 28 February 2000; 23 is of noon on 29 February, 24 of the night after it. 25 and 26
// are of the night from 28 February 2001 to 1 March.
const NIGHTS: [u32; 6] = [5090400, 5104800, 5140800, 5191200, 36712800, 36727200];

// An index of one feature with a record for each stamp: identifiers from `first` on, at 1, 2 and so on.
fn stamped(rt: &impl Print, first: u32, stamps: &[u32]) -> [u8; SHORTEST] {
    let mut index = [0; SHORTEST];
    make(rt, &mut index, "make in 2048 bytes, d 1", 1, 0);
    for ((id, x), stamp) in (first..).zip(1i16..).zip(stamps) {
        let epoch = Epoch {
            id,
            stage: 0,
            stamp: *stamp,
        };
        let number = number_of(index::insert(&mut index, epoch, &[x]));
        let _ = print!(rt; "insert of {id} with stamp {stamp}");
        Document::Book.line(rt, "", number, 0);
    }
    index
}

// The first rows of an answer from one leaf; those not written keep 7.
fn show_ids(rt: &impl Print, kept: &Returned, count: u64, ids: &[u64]) {
    Document::Days.answer(rt, kept.answer, 0, count, 1);
    for (row, id) in kept.rows.iter().zip(ids) {
        Document::Days.line(rt, "  identifier of a row", u64::from(row.id), *id);
    }
}

// From the origin of an index with one feature.
const EIGHT: Question = Question {
    point: &[0],
    k: 8,
    ..NEAREST
};

fn ask_span(rt: &impl Print, index: &[u8], span: Span, count: u64, ids: &[u64; 5]) {
    let question = Question {
        dates: Some(span.dates()),
        ..EIGHT
    };
    let _ = println!(rt; "from 0, k 8, {span}");
    show_ids(rt, &question.ask(index, LENT, NO_TALLY), count, ids);
}

fn ask_day(
    rt: &impl Print,
    index: &[u8],
    year: u16,
    month: u8,
    day: u8,
    count: u64,
    ids: &[u64; 5],
) {
    let date = on(year, month, day);
    ask_span(rt, index, Span(date, date), count, ids);
}

fn ask_ends(rt: &impl Print, index: &[u8]) {
    ask_day(rt, index, 2000, 1, 1, 2, &[13, 14, 7, 7, 7]);
    ask_span(
        rt,
        index,
        Span(EARLIEST, on(2000, 1, 2)),
        3,
        &[13, 14, 15, 7, 7],
    );
    ask_day(rt, index, 2000, 1, 2, 1, &[15, 7, 7, 7, 7]);
    ask_span(
        rt,
        index,
        Span(on(2000, 1, 3), on(2099, 12, 30)),
        0,
        &[7; 5],
    );
    ask_day(rt, index, 2099, 12, 31, 1, &[16, 7, 7, 7, 7]);
    ask_span(rt, index, Span(EARLIEST, LATEST), 4, &[13, 14, 15, 16, 7]);
    title(rt, "from 0, k 8, no dates");
    show_ids(
        rt,
        &EIGHT.ask(index, LENT, NO_TALLY),
        8,
        &[11, 12, 13, 14, 15],
    );
}

// Dates beside a smaller k, stages and weights: with weight 0 the newest goes first.
fn ask_beside(rt: &impl Print, index: &[u8]) {
    let two = Question {
        k: 2,
        dates: Some(Span(EARLIEST, LATEST).dates()),
        ..EIGHT
    };
    title(rt, "from 0, k 2, 2000-1-1 to 2099-12-31");
    show_ids(rt, &two.ask(index, LENT, NO_TALLY), 2, &[13, 14, 7, 7, 7]);
    title(rt, "the same of stages 1 to 5");
    let others = Question { stages: 62, ..two };
    show_ids(rt, &others.ask(index, LENT, NO_TALLY), 0, &[7; 5]);
    title(rt, "the same of all stages, with weight 0");
    let newest = Question {
        weights: Some(&[0]),
        ..two
    };
    show_ids(
        rt,
        &newest.ask(index, LENT, NO_TALLY),
        2,
        &[16, 15, 7, 7, 7],
    );
}

// A night belongs to the date on which it began.
fn ask_nights(rt: &impl Print, index: &[u8]) {
    ask_day(rt, index, 2000, 2, 28, 2, &[21, 22, 7, 7, 7]);
    ask_day(rt, index, 2000, 2, 29, 2, &[23, 24, 7, 7, 7]);
    ask_span(rt, index, Span(on(2000, 3, 1), on(2001, 2, 27)), 0, &[7; 5]);
    ask_day(rt, index, 2001, 2, 28, 2, &[25, 26, 7, 7, 7]);
    ask_span(rt, index, Span(on(2001, 3, 1), LATEST), 0, &[7; 5]);
}

// Leaves, on an index of 1 to 17 with stamps: n at the midnight that ends n January 2000

// A question from x for the k nearest of some days of that month: how many rows and leaves, and the identifier of row k.
#[derive(Clone, Copy)]
struct Asked {
    x: i16,
    k: usize,
    days: (u8, u8),
    said: (u64, u64, u64),
}

// Both leaves are read where fewer than k records are of those days, else those whose bound is no farther than row k, also one none of whose
// records is of those days.
const LEAVES: [Asked; 7] = [
    Asked {
        x: 1,
        k: 9,
        days: (1, 9),
        said: (9, 1, 9),
    },
    Asked {
        x: 1,
        k: 10,
        days: (1, 9),
        said: (9, 2, 7),
    },
    Asked {
        x: 1,
        k: 9,
        days: (1, 8),
        said: (8, 2, 7),
    },
    Asked {
        x: 1,
        k: 2,
        days: (3, 17),
        said: (2, 1, 4),
    },
    Asked {
        x: 1,
        k: 1,
        days: (10, 17),
        said: (1, 2, 10),
    },
    Asked {
        x: 17,
        k: 1,
        days: (10, 17),
        said: (1, 1, 17),
    },
    Asked {
        x: 1,
        k: 1,
        days: (18, 31),
        said: (0, 2, 7),
    },
];

fn ask_leaves(rt: &impl Print, index: &[u8], asked: &Asked) {
    let document = Document::Days;
    let Asked { x, k, .. } = *asked;
    let (first, last) = asked.days;
    let question = Question {
        point: &[x],
        k,
        dates: Some(Span(on(2000, 1, first), on(2000, 1, last)).dates()),
        ..NEAREST
    };
    let _ = println!(rt; "from {x}, k {k}, {first} to {last} January");
    let kept = question.ask(index, LENT, NO_TALLY);
    let (count, leaves, id) = asked.said;
    document.line(rt, "  rows", kept.answer.count as u64, count);
    document.line(rt, "  leaves read", u64::from(kept.answer.leaves), leaves);
    if let Some(row) = kept.rows.iter().take(k).last() {
        document.line(rt, "  identifier of a row", u64::from(row.id), id);
    }
}

pub fn run(rt: &impl Print) {
    title(rt, "recording days");
    let ends = stamped(rt, 11, &ENDS);
    ask_ends(rt, &ends);
    ask_beside(rt, &ends);
    let nights = stamped(rt, 21, &NIGHTS);
    ask_nights(rt, &nights);
    title(
        rt,
        "4 pages, d 1, identifiers 1 to 17 at 1 to 17, stamps 86400 apart",
    );
    let mut index = [0u8; 4 * PAGE_SIZE];
    fill(rt, &mut index, true, 0);
    for asked in &LEAVES {
        ask_leaves(rt, &index, asked);
    }
}

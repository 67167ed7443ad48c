// Dates of recording days (Q-4), through the acts: which are refused, after what, and which are disregarded.
use crate::codes::damage;
use crate::common::{CASE, Case, LENT, NEAREST, NO_TALLY, Question, SHORTEST, ask_cases, reply_to};
use calendar::{Date, Dates};
use index_query::Criteria;
use search_rows::MAX_ROWS;
use std::fmt;
use test_parts::show::{Document, title};

pub const fn on(year: u16, month: u8, day: u8) -> Date {
    Date { year, month, day }
}

// The first date of the calendar, and the last.
pub const EARLIEST: Date = Date {
    year: 2000,
    month: 1,
    day: 1,
};

pub const LATEST: Date = Date {
    year: 2099,
    month: 12,
    day: 31,
};

// Two dates, as in 2000-1-1 to 2099-12-31.
#[derive(Clone, Copy)]
pub struct Span(pub Date, pub Date);

impl Span {
    pub fn dates(self) -> Dates {
        Dates {
            first: self.0,
            last: self.1,
        }
    }
}

impl fmt::Display for Span {
    fn fmt<W: fmt::Write>(&self, f: &mut fmt::Formatter<W>) -> fmt::Result {
        let Span(first, last) = *self;
        write!(f, "{}-{}-{}", first.year, first.month, first.day)?;
        write!(f, " to {}-{}-{}", last.year, last.month, last.day)
    }
}

// The last day of each month.
const MONTHS: [(u8, u8); 12] = [
    (1, 31),
    (2, 28),
    (3, 31),
    (4, 30),
    (5, 31),
    (6, 30),
    (7, 31),
    (8, 31),
    (9, 30),
    (10, 31),
    (11, 30),
    (12, 31),
];

// Dates, as the first and as the last, and the number of the question.
const DATES: [(u16, u8, u8, u64); 20] = [
    // Leap days.
    (2000, 2, 29, 0),
    (2000, 2, 30, 17),
    (2001, 2, 29, 17),
    (2004, 2, 29, 0),
    (2096, 2, 29, 0),
    (2099, 2, 29, 17),
    (2100, 2, 29, 17),
    // Numbers that no date has.
    (2001, 4, 31, 17),
    (2001, 1, 0, 17),
    (2001, 1, 255, 17),
    (2001, 0, 1, 17),
    (2001, 13, 1, 17),
    (2001, 255, 1, 17),
    (0, 0, 0, 17),
    // The ends of the calendar, and what lies outside.
    (2000, 1, 1, 0),
    (2099, 12, 31, 0),
    (1999, 12, 31, 17),
    (2100, 1, 1, 17),
    (0, 1, 1, 17),
    (65535, 12, 31, 17),
];

// A first and a last date, and the number of the question.
const SPANS: [((u16, u8, u8), (u16, u8, u8), u64); 16] = [
    // The last before the first: by a day, a month, a year.
    ((2001, 5, 6), (2001, 5, 5), 18),
    ((2001, 5, 6), (2001, 4, 6), 18),
    ((2001, 5, 6), (2000, 5, 6), 18),
    ((2001, 5, 1), (2001, 4, 30), 18),
    ((2001, 1, 1), (2000, 12, 31), 18),
    ((2000, 3, 1), (2000, 2, 29), 18),
    ((2099, 12, 31), (2000, 1, 1), 18),
    // The same date twice, or the last after the first, also where its month or day is a lower number.
    ((2001, 5, 6), (2001, 5, 6), 0),
    ((2001, 5, 6), (2001, 5, 7), 0),
    ((2001, 5, 6), (2001, 6, 5), 0),
    ((2001, 5, 6), (2002, 4, 5), 0),
    ((2000, 1, 1), (2099, 12, 31), 0),
    // 17 comes before 18.
    ((2001, 2, 29), (2000, 1, 1), 17),
    ((2099, 12, 31), (2001, 2, 29), 17),
    ((2001, 4, 31), (2001, 2, 29), 17),
    ((2100, 1, 1), (1999, 12, 31), 17),
];

// Questions with weights that name dates.
const FINE: Question = Question {
    weights: Some(&[1, 1]),
    ..NEAREST
};

const FINE_CASE: Case = Case {
    question: FINE,
    ..CASE
};

// Dates that are refused come after 1 and 2.
const SHORT: [Case; 1] = [Case {
    what: "  2047 bytes",
    said: 1,
    ..FINE_CASE
}];

const DAMAGED: [Case; 1] = [Case {
    what: "  a damaged index",
    said: 2,
    ..FINE_CASE
}];

// After 3, 4 and 14.
const BEFORE: [Case; 4] = [
    Case {
        what: "  1 coordinate",
        question: Question {
            point: &[0],
            ..FINE
        },
        said: 3,
        ..CASE
    },
    Case {
        what: "  1 weight",
        question: Question {
            weights: Some(&[1]),
            ..FINE
        },
        said: 3,
        ..CASE
    },
    Case {
        what: "  from 1001",
        question: Question {
            point: &[1001, 0],
            ..FINE
        },
        said: 4,
        ..CASE
    },
    Case {
        what: "  weight 1001",
        question: Question {
            weights: Some(&[0, 1001]),
            ..FINE
        },
        said: 14,
        ..CASE
    },
];

// And after 10, 11 and 16.
const AFTER: [Case; 5] = [
    Case {
        what: "  k 0",
        question: Question { k: 0, ..FINE },
        said: 10,
        ..CASE
    },
    Case {
        what: "  k 65",
        question: Question { k: 65, ..FINE },
        lent: 100,
        said: 10,
    },
    Case {
        what: "  k 3, 2 rows lent",
        question: Question { k: 3, ..FINE },
        lent: 2,
        said: 11,
    },
    Case {
        what: "  set 0",
        question: Question { stages: 0, ..FINE },
        said: 16,
        ..CASE
    },
    Case {
        what: "  set 64",
        question: Question { stages: 64, ..FINE },
        said: 16,
        ..CASE
    },
];

// The number of a question for one record.
fn try_span(rt: &impl Print, index: &[u8], span: Span, said: u64) {
    let question = Question {
        dates: Some(span.dates()),
        ..NEAREST
    };
    let answer = question.reply(index, MAX_ROWS).answer;
    let _ = print!(rt; "{span}");
    Document::Days.line(rt, "", u64::from(answer.code), said);
}

// A refused question leaves rows and tally as they are.
fn refused_rows(rt: &impl Print, index: &[u8], dates: Dates, said: u64) {
    let document = Document::Days;
    let question = Question {
        dates: Some(dates),
        ..NEAREST
    };
    let kept = question.ask(index, LENT, NO_TALLY);
    document.line(
        rt,
        "  code, in rows lent",
        u64::from(kept.answer.code),
        said,
    );
    document.line(rt, "  rows", kept.answer.count as u64, 0);
    document.line(rt, "  leaves read", u64::from(kept.answer.leaves), 0);
    Document::Book.tally(rt, kept.tally, 0, 0);
    document.row(rt, &kept.rows[0], 7, 7);
}

// Dates that are refused, with all else that may be wrong.
fn refused_last(rt: &impl Print, index: &[u8], damaged: &[u8], span: Span, said: u64) {
    let document = Document::Days;
    let dates = Some(span.dates());
    let _ = println!(rt; "{span}");
    ask_cases(rt, document, &[0; SHORTEST - 1], &SHORT, dates);
    ask_cases(rt, document, damaged, &DAMAGED, dates);
    ask_cases(rt, document, index, &BEFORE, dates);
    let none = Case {
        what: "  none of these",
        said,
        ..FINE_CASE
    };
    ask_cases(rt, document, index, &[none], dates);
    ask_cases(rt, document, index, &AFTER, dates);
    refused_rows(rt, index, span.dates(), said);
}

// The first row of a question without dates, with some handed over. The stamps here are 0, which lies in no day.
fn try_disregarded(rt: &impl Print, index: &[u8], span: Span) {
    let what = Criteria {
        dates: span.dates(),
        ..NEAREST.criteria()
    };
    let _ = println!(rt; "not given: {span}");
    let kept = index::ask(index, NEAREST.point, &[], what, LENT, NO_TALLY);
    Document::Days.line(rt, "  code", u64::from(kept.answer.code), 0);
    Document::Days.line(rt, "  rows", kept.answer.count as u64, 1);
    Document::Days.row(rt, &kept.rows[0], 1, 1000000);
}

fn spans(rt: &impl Print, index: &[u8]) {
    for (month, days) in &MONTHS {
        let end = on(2001, *month, *days);
        let past = on(2001, *month, days.saturating_add(1));
        try_span(rt, index, Span(end, end), 0);
        try_span(rt, index, Span(past, past), 17);
    }
    for (year, month, day, said) in &DATES {
        let date = on(*year, *month, *day);
        try_span(rt, index, Span(date, LATEST), *said);
        try_span(rt, index, Span(EARLIEST, date), *said);
    }
    for ((y, m, d), (year, month, day), said) in &SPANS {
        let span = Span(on(*y, *m, *d), on(*year, *month, *day));
        try_span(rt, index, span, *said);
    }
}

// On the index with three points at the ends of the ranges.
pub fn run(rt: &impl Print, index: &[u8; SHORTEST]) {
    title(rt, "dates");
    spans(rt, index);
    try_disregarded(rt, index, Span(EARLIEST, LATEST));
    try_disregarded(rt, index, Span(LATEST, EARLIEST));
    try_disregarded(rt, index, Span(on(2001, 2, 29), on(65535, 255, 255)));
    let damaged = damage(index);
    refused_last(rt, index, &damaged, Span(on(2001, 2, 29), LATEST), 17);
    refused_last(rt, index, &damaged, Span(LATEST, EARLIEST), 18);
}

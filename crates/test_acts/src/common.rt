// Acts and questions that several parts of this program carry out, and what they print.
use calendar::Dates;
use index::{Checked, Returned};
use index_answer::{Answer, Tally};
use index_codes::{Refusal, code_of};
use index_query::{Criteria, nearest_of};
use index_refusals::Epoch;
use pagestore::PAGE_SIZE;
use search_rows::{MAX_ROWS, Row};
use test_parts::FULL_SET;
use test_parts::answers::Reply;
use test_parts::show::Document;

// The bytes of the shortest index: 2 pages.
pub const SHORTEST: usize = 2 * PAGE_SIZE;

// The number of an act's outcome.
pub fn number_of(outcome: Result<(), Refusal>) -> u64 {
    u64::from(code_of(outcome))
}

pub fn make(rt: &impl Print, index: &mut [u8], what: &str, d: u8, said: u64) {
    Document::Book.line(rt, what, number_of(index::make(index, d)), said);
}

pub fn delete(rt: &impl Print, index: &mut [u8], what: &str, id: u32, said: u64) {
    Document::Book.line(rt, what, number_of(index::delete(index, id)), said);
}

// An insert, and what a document says of it.
#[derive(Clone, Copy)]
pub struct Insert {
    pub what: &'static str,
    pub id: u32,
    pub stage: u8,
    pub stamp: u32,
    pub point: &'static [i16],
    pub said: u64,
}

pub const INSERT: Insert = Insert {
    what: "",
    id: 1,
    stage: 0,
    stamp: 0,
    point: &[0, 0],
    said: 0,
};

pub fn insert_all(rt: &impl Print, document: Document, index: &mut [u8], inserts: &[Insert]) {
    for insert in inserts {
        let epoch = Epoch {
            id: insert.id,
            stage: insert.stage,
            stamp: insert.stamp,
        };
        let number = number_of(index::insert(index, epoch, insert.point));
        document.line(rt, insert.what, number, insert.said);
    }
}

// An index of 2 pages with some records.
pub fn filled(rt: &impl Print, what: &str, d: u8, inserts: &[Insert]) -> [u8; SHORTEST] {
    let mut index = [0; SHORTEST];
    make(rt, &mut index, what, d, 0);
    insert_all(rt, Document::Book, &mut index, inserts);
    index
}

// The number that check gives, and the page.
pub fn checked(index: &[u8]) -> (u64, u64) {
    let checked = Checked::from(index::check(index));
    (u64::from(checked.code), u64::from(checked.page))
}

// A row as it is lent: every field is 7.
pub const KEPT: Row = Row {
    distance: 7,
    id: 7,
    stamp: 7,
    position: 7,
};

pub const LENT: [Row; MAX_ROWS] = [KEPT; MAX_ROWS];

pub const NO_TALLY: Tally = Tally {
    questions: 0,
    leaves: 0,
};

// A question: from which point, by which weights, for how many records, of which stages, between which dates.
#[derive(Clone, Copy)]
pub struct Question<'a> {
    pub point: &'a [i16],
    pub weights: Option<&'a [u16]>,
    pub k: usize,
    pub stages: u8,
    pub dates: Option<Dates>,
}

// A question for one record of any stage.
pub const NEAREST: Question = Question {
    point: &[0, 0],
    weights: None,
    k: 1,
    stages: FULL_SET,
    dates: None,
};

// The reply to what is asked with so many rows lent.
pub fn reply_to(
    index: &[u8],
    point: &[i16],
    weights: &[u16],
    what: Criteria,
    lent: usize,
) -> Reply {
    let mut highs = [0; MAX_ROWS];
    let mut lows = [0; MAX_ROWS];
    let outcome = index::question_outcome(index, point, weights, what, lent, &mut highs, &mut lows);
    Reply {
        answer: Answer::from(outcome),
        highs,
        lows,
    }
}

impl Question<'_> {
    pub fn criteria(&self) -> Criteria {
        let bare = nearest_of(self.k, self.stages);
        Criteria {
            weighted: self.weights.is_some(),
            dated: self.dates.is_some(),
            dates: self.dates.unwrap_or(bare.dates),
            ..bare
        }
    }

    // The reply with so many rows lent.
    pub fn reply(&self, index: &[u8], lent: usize) -> Reply {
        let weights = self.weights.unwrap_or(&[]);
        reply_to(index, self.point, weights, self.criteria(), lent)
    }

    // The public question, in rows and with a tally.
    pub fn ask(&self, index: &[u8], rows: [Row; MAX_ROWS], tally: Tally) -> Returned {
        let weights = self.weights.unwrap_or(&[]);
        index::ask(index, self.point, weights, self.criteria(), rows, tally)
    }
}

// A question of which only the number is looked at, with so many rows lent.
#[derive(Clone, Copy)]
pub struct Case {
    pub what: &'static str,
    pub question: Question<'static>,
    pub lent: usize,
    pub said: u64,
}

pub const CASE: Case = Case {
    what: "",
    question: NEAREST,
    lent: MAX_ROWS,
    said: 0,
};

// Asks the questions, between these dates.
pub fn ask_cases(
    rt: &impl Print,
    document: Document,
    index: &[u8],
    cases: &[Case],
    dates: Option<Dates>,
) {
    for case in cases {
        let question = Question {
            dates,
            ..case.question
        };
        let answer = question.reply(index, case.lent).answer;
        document.line(rt, case.what, u64::from(answer.code), case.said);
    }
}

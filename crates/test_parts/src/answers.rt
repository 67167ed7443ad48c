// Lines of an answer, of its rows, of a tally and of a leaf, each number beside the one that a document says.
use crate::show::Document;
use index_answer::{Answer, Tally};
use pagestore::leaf_at;
use search_rows::{MAX_ROWS, Row, row_of};

// An answer, and its rows in two words each.
#[derive(Clone, Copy)]
pub struct Reply {
    pub answer: Answer,
    pub highs: [u64; MAX_ROWS],
    pub lows: [u64; MAX_ROWS],
}

impl Reply {
    pub fn first(&self) -> Row {
        row_of(self.highs[0], self.lows[0])
    }
}

impl Document {
    pub fn answer(self, rt: &impl Print, answer: Answer, code: u64, rows: u64, leaves: u64) {
        self.line(rt, "  code", u64::from(answer.code), code);
        self.line(rt, "  rows", answer.count as u64, rows);
        self.line(rt, "  leaves read", u64::from(answer.leaves), leaves);
    }

    pub fn row(self, rt: &impl Print, row: &Row, id: u64, distance: u64) {
        self.line(rt, "  identifier of a row", u64::from(row.id), id);
        self.line(rt, "  its distance", row.distance, distance);
    }

    // The first rows, each with its identifier and its distance.
    pub fn rows(self, rt: &impl Print, rows: &[Row], said: &[(u64, u64)]) {
        for (row, (id, distance)) in rows.iter().zip(said) {
            self.row(rt, row, *id, *distance);
        }
    }

    pub fn tally(self, rt: &impl Print, tally: Tally, questions: u64, leaves: u64) {
        self.line(
            rt,
            "  questions tallied",
            u64::from(tally.questions),
            questions,
        );
        self.line(rt, "  leaves tallied", u64::from(tally.leaves), leaves);
    }

    // The records of a leaf: how many, the first and the last.
    pub fn leaf(self, rt: &impl Print, index: &[u8], page: u32, n: u64, first: u64, last: u64) {
        let leaf = leaf_at(index, page);
        self.line(rt, "  records of the leaf", leaf.count as u64, n);
        self.line(rt, "  the first", u64::from(leaf.records[0].id), first);
        if let Some(record) = leaf.records.get(..leaf.count).and_then(|r| r.last()) {
            self.line(rt, "  the last", u64::from(record.id), last);
        }
    }
}

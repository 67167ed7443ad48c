// What came of questions.
use std::fmt;

// The rows and the leaves read, and how many of them differ from the full scan.
#[derive(Clone, Copy, Default)]
pub struct Seen {
    pub rows: u64,
    pub leaves: u64,
    pub differences: u64,
}

impl Seen {
    // A question that was refused, or returned another number of rows.
    pub const WRONG: Seen = Seen {
        rows: 0,
        leaves: 0,
        differences: 1,
    };

    // Adds what came of another question.
    pub fn add(&mut self, other: Seen) {
        self.rows = self.rows.wrapping_add(other.rows);
        self.leaves = self.leaves.wrapping_add(other.leaves);
        self.differences = self.differences.wrapping_add(other.differences);
    }
}

impl fmt::Display for Seen {
    fn fmt<W: fmt::Write>(&self, f: &mut fmt::Formatter<W>) -> fmt::Result {
        let Seen {
            rows,
            leaves,
            differences,
        } = *self;
        write!(
            f,
            "rows compared {rows} leaves read {leaves} differences {differences}"
        )
    }
}

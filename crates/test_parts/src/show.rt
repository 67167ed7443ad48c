// Lines of output. A write that fails is passed over, since what was printed is compared as a whole.
use std::fmt;

// What a line says a result beside.
#[derive(Clone, Copy)]
pub enum Document {
    // 01.
    Book,
    // The change request on weights.
    Weights,
    // On stages.
    Stages,
    // On recording days.
    Days,
    // On the order of rows.
    Order,
}

impl fmt::Display for Document {
    fn fmt<W: fmt::Write>(&self, f: &mut fmt::Formatter<W>) -> fmt::Result {
        f.write_str(match self {
            Document::Book => "01",
            Document::Weights => "Q-1",
            Document::Stages => "Q-2",
            Document::Days => "Q-4",
            Document::Order => "Q-9",
        })
    }
}

impl Document {
    // What was done, what came of it, and what the document says.
    pub fn line(self, rt: &impl Print, what: &str, came: u64, said: u64) {
        let differs = if came == said { "" } else { " DIFFERS" };
        let _ = println!(rt; "{what}: {came}, {self} says {said}{differs}");
    }
}

// A line without a result.
pub fn title(rt: &impl Print, s: &str) {
    let _ = println!(rt; "{s}");
}

// The acts on an index: each has a stated outcome for every input, and refuses with the first number that applies in its order
// (`index_refusals`). An act is the check and then the act without it (`index_trusted`), which a caller that holds its index alone may use by
// itself. A caller that also keeps the identifiers and their points may insert and delete without a look for the identifier (`index_vouched`).
#![tactic(auto)]

use index_answer::{Answer, Tally};
use search_rows::{MAX_ROWS, Row};

mod asking;
mod checking;
mod making;
mod upkeep;

pub use asking::{ask, question, question_outcome};
pub use checking::{Checked, Flaw, check};
pub use making::make;
pub use upkeep::{delete, insert};

// What a question by value leaves: its answer, and the rows and the tally after it.
#[derive(Clone, Copy)]
pub struct Returned {
    pub answer: Answer,
    pub rows: [Row; MAX_ROWS],
    pub tally: Tally,
}

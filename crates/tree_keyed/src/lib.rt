// Whether an index holds a record where its key leads. Each function is total, whatever the index holds.
#![tactic(auto)]

mod keyed;

pub use keyed::holds;

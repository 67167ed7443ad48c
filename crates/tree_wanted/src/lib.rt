// The pages that an insertion wants. Nothing is written, and each function is total, whatever the index holds.
#![tactic(auto)]

mod wanted;

pub use wanted::pages_wanted;

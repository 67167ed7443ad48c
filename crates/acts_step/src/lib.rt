// The acts program by the line (01, "The acts program"): what the first line and each line of values do to the index and print, and how a
// run goes on from chunk to chunk of input.
#![tactic(auto)]

mod acting;
mod input;
mod lines;

pub use input::{end_input, end_line, take_line};
pub use lines::{first_line, step};

// What the first line leaves: the features that it names, none where the program ends, and where the output goes on.
#[derive(Clone, Copy)]
pub struct Begun {
    pub d: Option<usize>,
    pub at: usize,
}

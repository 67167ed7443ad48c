// The first line, and a line of values.
ghost use Rattle.std.specs.Prelude.{◌≡◌, ◌+◌, ◌≤◌, length};
ghost use Rattle.acts_output.specs.Puts.{most_printed, Puts};
ghost use Rattle.acts_step.specs.Steps.{index_bytes, Steps, Begins};

use crate::Begun;
use crate::acting::do_act;
use acts_output::{put_heading, put_result};
use acts_text::lines::read_act;
use acts_text::names::read_names;

// The code of a line that cannot be read.
const UNREADABLE: u64 = 13;

// Line `number`, of values: its act is done on the index, and what it prints goes to `out` from `at` on. Returns where the output goes on.
pub fn step(
    index: &mut [u8],
    d: usize,
    number: u64,
    line: &[u8],
    out: &mut [u8],
    at: usize,
) -> usize
    requires { at + most_printed ≤ length out.old }
    ensures { Puts (Steps d index.old number line.now index.new)
        most_printed out.old out.new at result }
{
    match read_act(line, d) {
        Some(a) => do_act(index, a, number, out, at),
        None => put_result(out, at, number, UNREADABLE, 0, 0, 0),
    }
}

// The first line: the index is made if it is a line of names.
pub fn first_line(index: &mut [u8], line: &[u8], out: &mut [u8], at: usize) -> Begun
    requires { (length index.old ≡ index_bytes) × (at + most_printed ≤ length out.old) }
    ensures { Puts (Begins index.old line.now result.d index.new)
        most_printed out.old out.new at result.at }
{
    let e = put_heading(out, at);
    let d = read_names(line);
    match d {
        Some(n) => {
            // 64 pages and 1 to 16 features are not refused.
            let _ = index::make(index, n as u8);
            Begun { d, at: e }
        }
        None => {
            let end = put_result(out, e, 1, UNREADABLE, 0, 0, 0);
            Begun { d, at: end }
        }
    }
}

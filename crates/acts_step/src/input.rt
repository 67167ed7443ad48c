// Input, chunk by chunk: a line that ends is done.
ghost use Rattle.std.specs.Prelude.{◌≡◌, ◌≤◌, length};
ghost use Rattle.acts_step.specs.Advances.{Ready, Ended, Within, Takes, Closes};

use crate::lines::{first_line, step};
use acts_buffer::Progress;
use acts_text::input::feed;

// The current line has ended, and these are its bytes: the first line begins, or an act is done.
pub fn end_line(index: &mut [u8], line: &[u8], out: &mut [u8], s: Progress) -> Progress
    requires { Ready index.old out.old s }
    ensures { Ended index.old line.now out.old s index.new out.new result
        × (result.at ≡ s.at) }
{
    if s.number == 1 {
        let begun = first_line(index, line, out, s.end);
        return Progress {
            going: begun.d.is_some(),
            d: begun.d.unwrap_or(0),
            number: 2,
            held: 0,
            at: s.at,
            end: begun.at,
        };
    }
    let end = step(index, s.d, s.number, line, out, s.end);
    Progress {
        number: s.number + 1,
        held: 0,
        end,
        ..s
    }
}

// Takes the chunk's bytes into the current line, up to a newline or the chunk's end. A line that ends there is done.
pub fn take_line(
    index: &mut [u8],
    held: &mut [u8],
    chunk: &[u8],
    out: &mut [u8],
    s: Progress,
) -> Progress
    requires { Ready index.old out.old s × Within held.old chunk.now s }
    ensures { Takes index.old held.old chunk.now out.old s
        index.new held.new out.new result }
{
    let fed = feed(held, s.held, chunk, s.at);
    let n = fed.held;
    let t = Progress {
        held: n,
        at: fed.at,
        ..s
    };
    if !fed.ended {
        return t;
    }
    end_line(index, &held[..n], out, t)
}

// The end of input: it ends a last line that has bytes, and the first line also where it has none.
pub fn end_input(index: &mut [u8], held: &[u8], out: &mut [u8], s: Progress) -> Progress
    requires { Ready index.old out.old s × (s.held ≤ length held.now) }
    ensures { Closes index.old held.now out.old s index.new out.new result }
{
    let n = s.held;
    if s.number == 1 {
        return end_line(index, &held[..n], out, s);
    }
    if n == 0 {
        return s;
    }
    end_line(index, &held[..n], out, s)
}

// The acts program (01): runs the acts of a text, read from standard input, on a 64-page index, and writes what they print to standard
// output.
#![tactic(auto)]

ghost use Rattle.std.specs.Prelude.{◌≡◌, ◌≤◌, length};
ghost use Rattle.acts_output.specs.Puts.{most_printed};
ghost use Rattle.acts_step.specs.Steps.{index_bytes};
ghost use Rattle.acts.specs.Running.{Fits, Ran, UsedUp, Taken, Closed, Whole};

use acts_buffer::{Progress, flush, has_room, make_room};
use acts_step::{end_input, take_line};
use acts_text::input::KEPT;
use std::io::Read;

// The bytes of each large buffer: of the index, of a chunk of input and of the output.
const BUFFER: usize = 65536;

// Does the lines that end in a chunk, from `s.at` on, as far as there is room for what they print.
fn run_chunk(
    index: &mut [u8],
    held: &mut [u8],
    chunk: &[u8],
    out: &mut [u8],
    s: Progress,
) -> Progress
    requires { Fits index.old held.old out.old s × (s.at ≤ length chunk.now) }
    ensures { Ran index.old held.old chunk.now out.old s
        index.new held.new out.new result }
{
    let mut t = s;
    while t.going && t.at < chunk.len() && has_room(t, out.len()) {
        t = take_line(index, held, chunk, out, t);
    }
    t
}

// Does all lines that end in a chunk, and hands over what they print where there is no room for more.
fn use_up(
    rt: &impl Print,
    index: &mut [u8],
    held: &mut [u8],
    chunk: &[u8],
    out: &mut [u8],
    s: Progress,
) -> Progress
    requires { Fits index.old held.old out.old s }
    ensures { UsedUp index.old held.old chunk.now out.old s
        index.new held.new out.new result }
{
    let mut t = Progress { at: 0, ..s };
    while t.going && t.at < chunk.len() {
        let u = make_room(rt, out, t);
        if !u.going {
            return u;
        }
        t = run_chunk(index, held, chunk, out, u);
    }
    t
}

// Reads once; a read that fails ends the input.
fn read_chunk(rt: &impl Input, chunk: &mut [u8]) -> usize
    ensures { result ≤ length chunk.new }
{
    let mut input = rt.reader();
    input.read(chunk).unwrap_or(0)
}

// Reads and runs to the end of input, which comes before the turns are used up.
fn run_input(
    rt: &(impl Input + Print),
    index: &mut [u8],
    held: &mut [u8],
    chunk: &mut [u8],
    out: &mut [u8],
    s: Progress,
) -> Progress
    requires { Fits index.old held.old out.old s }
    ensures { Taken index.old held.old out.old s
        index.new held.new out.new result }
{
    let mut t = s;
    'turns: for _ in 0..u64::MAX {
        if !t.going {
            return t;
        }
        let n = read_chunk(rt, chunk);
        if n == 0 {
            return t;
        }
        t = use_up(rt, index, held, &chunk[..n], out, t);
    }
    t
}

// The end of input ends a last line, unless the run has ended before.
fn close(rt: &impl Print, index: &mut [u8], held: &[u8], out: &mut [u8], s: Progress) -> Progress
    requires { Fits index.old held.now out.old s }
    ensures { Closed index.old held.now out.old s index.new out.new result }
{
    if !s.going {
        return s;
    }
    let t = make_room(rt, out, s);
    if !t.going {
        return t;
    }
    end_input(index, held, out, t)
}

// A whole run, from its first line to the end of input. What is left in `out` is still to be written.
fn run(
    rt: &(impl Input + Print),
    index: &mut [u8],
    held: &mut [u8],
    chunk: &mut [u8],
    out: &mut [u8],
) -> Progress
    requires { (length index.old ≡ index_bytes) × (257 ≤ length held.old) × (most_printed ≤ length out.old) }
    ensures { Whole index.old held.old out.old index.new out.new result }
{
    let s = Progress {
        going: true,
        d: 0,
        number: 1,
        held: 0,
        at: 0,
        end: 0,
    };
    let t = run_input(rt, index, held, chunk, out, s);
    close(rt, index, held, out, t)
}

fn main(rt: HostRuntime) {
    let mut index = [0u8; BUFFER];
    let mut chunk = [0u8; BUFFER];
    let mut out = [0u8; BUFFER];
    let mut held = [0u8; KEPT];
    let r = run(&rt, &mut index, &mut held, &mut chunk, &mut out);
    flush(&rt, &out, r);
}

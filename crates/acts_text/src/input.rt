// Input cut into lines, chunk by chunk: the current line's bytes are kept in a lent buffer, at most 257 of them.
ghost use Rattle.std.specs.Prelude.{suc, ◌≤◌, length};
ghost use Rattle.acts_text.specs.Lines.{limit};
ghost use Rattle.acts_text.specs.Input.{Feeds};

use crate::Fed;
use crate::lines::LIMIT;
use acts_fields::bytes::{find, past, put_bytes};

// The bytes kept of a line: one more than a readable line has.
pub const KEPT: usize = LIMIT + 1;

// Takes the chunk's bytes from index at into the current line, of which n are held, up to a newline or the chunk's end.
pub fn feed(held: &mut [u8], n: usize, chunk: &[u8], at: usize) -> Fed
    requires { (suc limit ≤ length held.old) × (n ≤ suc limit) × (at ≤ length chunk.now) }
    ensures { Feeds held.old held.new n chunk.now at result }
{
    let e = find(chunk, at, b'\n');
    let stop = at + (e - at).min(KEPT - n);
    Fed {
        ended: e < chunk.len(),
        held: put_bytes(held, n, &chunk[at..stop]),
        at: past(e, chunk.len()),
    }
}

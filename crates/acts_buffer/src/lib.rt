// Where a run of the acts program stands, and its output buffer: room made for what a line prints, by handing over what stands there.
#![tactic(auto)]

ghost use Rattle.std.specs.Prelude.{◌≡◌, true, false, ◌≤◌, ◌<◌, length};
ghost use Rattle.acts_output.specs.Puts.{most_printed};
ghost use Rattle.acts_buffer.specs.Room.{Placed, Flushed, Open, Full, Cleared};

use acts_output::MAX_PRINTED;

// The last number that a line may have; no input comes to it.
const LAST: u64 = 18446744073709551614;

// Where a run stands: whether it goes on, the features named, the number of the current line, how many of its bytes are held, where the
// chunk goes on, and where the output goes on.
// Kept: the flag guards no field, as the end of a run that has ended is still to be flushed.
#[derive(Clone, Copy)]
pub struct Progress {
    pub going: bool,
    pub d: usize,
    pub number: u64,
    pub held: usize,
    pub at: usize,
    pub end: usize,
}

// The progress with other places of chunk and output.
pub fn placed(s: Progress, going: bool, at: usize, end: usize) -> Progress
    ensures { Placed s going at end result }
{
    Progress {
        going,
        at,
        end,
        ..s
    }
}

// Hands over what is printed, to be written. Where that fails the run does not go on.
pub fn flush(rt: &impl Print, out: &[u8], s: Progress) -> Progress
    requires { s.end ≤ length out.now }
    ensures { Flushed s result }
{
    let end = s.end;
    let is_written = rt.write_all(&out[..end]).is_ok();
    placed(s, s.going && is_written, s.at, 0)
}

// Whether a line can be done: there is room for what it prints, and a number for it.
pub fn has_room(s: Progress, space: usize) -> bool
    requires { s.end ≤ space }
    ensures { (result ≡ true → Open space s) × (result ≡ false → Full space s) }
{
    s.number <= LAST && MAX_PRINTED <= space - s.end
}

// Ends a run whose next line has no number; any other stays as it is.
fn ended_if_last(t: Progress) -> Progress
    ensures stays { t.number < 18446744073709551615 → result ≡ t }
    ensures ends { 18446744073709551615 ≤ t.number → Placed t false t.at 0 result }
{
    if LAST < t.number {
        return placed(t, false, t.at, 0);
    }
    t
}

// Makes room for a line. Where it has no number the run does not go on.
#[tactic(auto, using(crate::proofs::RoomLaws::flush_makes, crate::proofs::RoomLaws::flush_ends))]
pub fn make_room(rt: &impl Print, out: &[u8], s: Progress) -> Progress
    requires { (s.end ≤ length out.now) × (most_printed ≤ length out.now) }
    ensures { Cleared out.now s result }
{
    if has_room(s, out.len()) {
        return s;
    }
    ended_if_last(flush(rt, out, s))
}

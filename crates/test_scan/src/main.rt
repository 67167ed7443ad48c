// Many questions, without weights and with, and with dates, compared with a full scan. A line gives what was compared; the file `stdout` has the
// lines as they should be.
#![tactic(auto)]

mod asking;
mod batches;
mod filling;
mod ones;

fn main(rt: HostRuntime) {
    batches::run(&rt);
}

// The examples of 01 that are not proved, weights by Q-1, stages by Q-2, recording days by Q-4 and the order of rows by Q-9, run through the acts. A
// line gives what was done, what came of it and what 01 or the change request says; the file `stdout` has the lines as they should be.
#![tactic(auto)]

mod codes;
mod common;
mod dates;
mod days;
mod lent;
mod newest;
mod stages;
mod upward;
mod weights;

fn main(rt: HostRuntime) {
    upward::run(&rt);
    let index = codes::run(&rt);
    stages::run(&rt, &index);
    newest::run(&rt);
    weights::run(&rt, &index);
    dates::run(&rt, &index);
    days::run(&rt);
}

// Indexes with one fault each, for the rules of soundness: prints for each its number, the code and the page that the check answers.
//
// The sound index: 8 pages, one feature. Pages 1 and 2 are leaves of the points 1 .. 8 and 9 .. 16, page 3 is the root over them, page 4 is
// freed, and pages 5 to 7 were never used.
#![tactic(auto)]

ghost use Rattle.std.specs.Prelude.{◌≤◌};

use damages::{DAMAGES, Damage};
use sound_check::check;

mod building;
mod damages;

// A write that fails is passed over.
fn print_case(rt: &impl Print, k: usize, damage: &Damage) {
    let mut index = [0u8; 8192];
    building::build(&mut index);
    damage.inflict(&mut index);
    let (code, page) = match check(&index) {
        Ok(()) => (0, 0),
        Err(fault) => (2, fault.page),
    };
    let _ = println!(rt; "{k} {code} {page}");
}

fn main(rt: HostRuntime) {
    for (k, damage) in DAMAGES.iter().enumerate() {
        print_case(&rt, k, damage);
    }
}

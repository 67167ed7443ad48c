// What is asked of an index, the visit that answers it, and what is promised of its answer. All of it is in specs/ and proofs/; this
// file holds no function, only the numbers and the choice of which they speak.
#![tactic(auto)]

use calendar::Window;

// The highest level of a root.
pub const MAX_LEVEL: u8 = 4;

// The greatest position of a leaf.
pub const LAST_PLACE: usize = 8191;

// How many branches the frontier has room for, by the number of records.
pub const FEW_RECORDS: u32 = 1024;

pub const SOME_RECORDS: u32 = 4096;

pub const MANY_RECORDS: u32 = 16384;

pub const SMALL_ROOM: usize = 128;

pub const MIDDLE_ROOM: usize = 512;

pub const LARGE_ROOM: usize = 2048;

pub const FULL_ROOM: usize = 8192;

// The set of all six stages.
pub const ALL_STAGES: u8 = 63;

// Which records are looked for: those whose stage is in the set, bit s for stage s, and whose stamp lies in the window, if there is one.
#[derive(Clone, Copy)]
pub struct Choice {
    pub stages: u8,
    pub window: Option<Window>,
}

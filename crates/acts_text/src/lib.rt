// The acts text (01, "The acts program"): reads the line of names and the lines of values, and cuts input into lines.
// Every function takes any bytes; one that writes asks only for room in the lent buffer.
#![tactic(auto)]

ghost use Rattle.acts_text.specs.Acts.{Decodes};

use lines::MAX_FEATURES;

pub mod input;
pub mod lines;
pub mod names;

// What a line of values asks for.
#[derive(Clone, Copy, Debug, PartialEq, Eq)]
pub enum Act {
    Insert,
    Delete,
    Ask,
}

// A number that no act has.
#[derive(Clone, Copy, Debug, PartialEq, Eq)]
pub struct UnknownAct;

impl TryFrom<u32> for Act {
    type Error = UnknownAct;

    ghost try_from_gives = { Decodes };

    fn try_from(n: u32) -> Result<Self, UnknownAct> {
        match n {
            1 => Ok(Act::Insert),
            2 => Ok(Act::Delete),
            3 => Ok(Act::Ask),
            _ => Err(UnknownAct),
        }
    }
}

// What a readable line of values says. Slots past d hold 0.
// Kept: d beside an array, as there is no heap.
#[derive(Clone, Copy)]
pub struct ActLine {
    pub act: Act,
    pub id: u32,
    pub k: u32,
    pub stage: u32,
    pub stamp: u32,
    pub d: usize,
    pub coords: [i16; MAX_FEATURES],
}

// How far a chunk of input took the current line, and whether the line has ended there.
// Kept: the flag guards no field, as held and at say the same either way.
#[derive(Clone, Copy)]
pub struct Fed {
    pub ended: bool,
    pub held: usize,
    pub at: usize,
}

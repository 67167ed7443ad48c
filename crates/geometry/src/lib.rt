// The geometry of the index: keys, the pyramid and height of a point, gaps and what they cost.
#![tactic(auto)]

pub mod keys;
pub mod points;

// The most features of an index, and the greatest magnitude of a coordinate, which a stored coordinate has added to it.
pub const MAX_FEATURES: usize = 16;

pub const MAX_COORDINATE: u16 = 1000;

// The greatest weight of a feature.
pub const MAX_WEIGHT: u16 = 1000;

// The range of a coordinate as a caller has it.
pub const MIN_SIGNED: i16 = -MAX_SIGNED;

pub const MAX_SIGNED: i16 = MAX_COORDINATE as i16;

// A pyramid number counts regions and a height counts steps from the centre; neither stands for the other.
#[derive(Clone, Copy, PartialEq, Eq, PartialOrd, Ord)]
pub struct Pyramid(pub u8);

#[derive(Clone, Copy, PartialEq, Eq, PartialOrd, Ord)]
pub struct Height(pub u16);

// The pair of a point (01, "Pyramid and height").
#[derive(Clone, Copy, PartialEq, Eq, PartialOrd, Ord)]
pub struct Pair {
    pub pyramid: Pyramid,
    pub height: Height,
}

// A key (01): compared by pyramid, then height, then identifier.
#[derive(Clone, Copy, PartialEq, Eq, PartialOrd, Ord)]
pub struct Key {
    pub pyramid: Pyramid,
    pub height: Height,
    pub id: u32,
}

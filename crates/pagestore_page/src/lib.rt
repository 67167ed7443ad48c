// One page in bytes: keys, entries and records, leaf, inner and freed pages. docs/LAYOUT.md has the table of offsets. Each function is handed a
// page's part of the index, 1,024 bytes; which part that is, is the affair of `pagestore`.
#![tactic(auto)]

use geometry::{Key, MAX_FEATURES};

mod inners;
mod items;
mod leaves;
mod links;
mod shift;

// The bytes of a page.
pub const PAGE_SIZE: usize = 1024;
// The pages of the longest index.
pub const MAX_PAGES: u32 = 16384;
// The points of the fullest index.
pub const MAX_POINTS: u32 = 65535;
// The last of the six stages: 0 wake, 1 to 3 the N stages, 4 REM, 5 unscored.
pub const MAX_STAGE: u8 = 5;
// The items of a page, records or entries: for how many there is room.
pub const MAX_ITEMS: usize = 16;
// The items that a page other than the root has at least.
pub const MIN_ITEMS: usize = 8;

// Leaves.
pub use leaves::{
    empty_leaf, lanes, no_record, read_coord, read_count, read_ident, read_leaf, read_record,
    read_stage, read_stamp, write_leaf,
};
pub use shift::insert_record;

// Inner and freed pages.
pub use inners::{no_entry, read_entry, write_inner};
pub use items::filled;
pub use links::{read_link, write_freed};

// A record as it is stored: its identifier, its stage and its stamp, and 16 coordinate slots, each a coordinate with 1,000 added. A page
// keeps 11 bits of each.
// Kept: the stage as the byte that is stored, since a reader of any bytes promises `record_at`, whose stage may be none of the six.
#[derive(Clone, Copy)]
pub struct Record {
    pub id: u32,
    pub stage: u8,
    pub stamp: u32,
    pub coords: [u16; MAX_FEATURES],
}

// A leaf page. The count is as stored and may be above 16; there are 16 slots.
// Kept, here and in Inner: an array with its count beside it. There is no heap, and the count is not the number of items: above 16 it reads as 16
// (`records_in`, `entries_in`).
#[derive(Clone, Copy)]
pub struct Leaf {
    pub count: usize,
    pub records: [Record; MAX_ITEMS],
}

// An inner entry: a child with its first and last key.
#[derive(Clone, Copy)]
pub struct Entry {
    pub child: u32,
    pub first: Key,
    pub last: Key,
}

// An inner page. Level and count are as stored; there are 16 slots.
#[derive(Clone, Copy)]
pub struct Inner {
    pub level: u8,
    pub count: usize,
    pub entries: [Entry; MAX_ITEMS],
}

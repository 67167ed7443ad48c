// The faults, one for each index.
use crate::building::{LEFT, RIGHT, Span, key, leaf, record, root_of, set_root};
use pagestore::{
    Entry, Leaf, Record, set_features, set_freed_head, set_fresh_page, set_index_size, set_inner,
    set_leaf, set_root_level, set_root_page, set_total_records,
};
use pagestore_free::free_page;

// One of the two leaves.
#[derive(Clone, Copy)]
pub enum Side {
    Left,
    Right,
}

#[derive(Clone, Copy)]
pub enum Damage {
    Nothing,
    // The header's fields.
    IndexSize(u32),
    Features(u8),
    RootPage(u32),
    RootLevel(u8),
    Total(u32),
    FreshPage(u32),
    FreedHead(u32),
    // The freed pages and states.
    Free(u32),
    FreeRoot,
    // Another record at a place of a leaf; the same of a stage, in place of 12, with the last stamp that there is.
    Record {
        side: Side,
        at: usize,
        id: u32,
        slot: u16,
    },
    Stage(u8),
    // The count of the right leaf.
    Count(usize),
    // A byte that the store does not write so.
    Byte {
        at: usize,
        value: u8,
    },
    // The root's count and entries.
    Root(usize, Span, Span),
    // An entry to a page never used that would be a leaf of the right points.
    FreshLeaf,
    // A leaf that is freed too.
    FreedLeaf,
}

pub const DAMAGES: [Damage; 33] = [
    Damage::Nothing,
    Damage::IndexSize(7),
    Damage::Features(0),
    Damage::RootPage(9),
    Damage::RootLevel(2),
    Damage::RootPage(5),
    Damage::Total(15),
    Damage::FreshPage(9),
    Damage::FreedHead(200),
    Damage::FreedHead(6),
    Damage::Free(4),
    Damage::FreeRoot,
    Damage::FreshPage(6),
    Damage::Free(2),
    Damage::Record {
        side: Side::Left,
        at: 3,
        id: 4,
        slot: 1006,
    },
    Damage::Record {
        side: Side::Left,
        at: 3,
        id: 0,
        slot: 1004,
    },
    Damage::Record {
        side: Side::Left,
        at: 7,
        id: 8,
        slot: 2001,
    },
    Damage::Record {
        side: Side::Right,
        at: 3,
        id: 4,
        slot: 1012,
    },
    Damage::Count(7),
    // A count above 16.
    Damage::Byte {
        at: 2049,
        value: 17,
    },
    Damage::Root(2, Span { first: 2, ..LEFT }, RIGHT),
    Damage::Root(2, LEFT, Span { last: 17, ..RIGHT }),
    Damage::Root(2, LEFT, Span { child: 99, ..RIGHT }),
    Damage::Root(2, LEFT, Span { child: 1, ..RIGHT }),
    Damage::Root(2, LEFT, Span { child: 3, ..RIGHT }),
    Damage::Root(2, LEFT, Span { child: 4, ..RIGHT }),
    Damage::Root(1, LEFT, RIGHT),
    Damage::Root(2, RIGHT, LEFT),
    Damage::FreshLeaf,
    Damage::FreedLeaf,
    // Stages: 6 is none, 5 is one, with any stamp, and a slot past the count has no rule.
    Damage::Stage(6),
    Damage::Stage(5),
    Damage::Byte {
        at: 2072,
        value: 255,
    },
];

// A leaf with another record at a place.
fn set_record(index: &mut [u8], side: Side, at: usize, r: Record) {
    let (page, first) = match side {
        Side::Left => (1, 1),
        Side::Right => (2, 9),
    };
    let mut records = leaf(first, 8).records;
    if let Some(place) = records.get_mut(at) {
        *place = r;
    }
    set_leaf(index, page, Leaf { count: 8, records });
}

fn set_fresh_leaf(index: &mut [u8]) {
    set_leaf(index, 5, leaf(9, 8));
    set_root(index, 2, LEFT, Span { child: 5, ..RIGHT });
}

// The freed leaf's first identifier reads as the link to page 4.
fn set_freed_leaf(index: &mut [u8]) {
    set_record(index, Side::Left, 3, record(20, 1004));
    set_record(index, Side::Right, 0, record(4, 1009));
    set_freed_head(index, 2);
    let left = Entry {
        child: 1,
        first: key(1, 1),
        last: key(8, 8),
    };
    let right = Entry {
        child: 2,
        first: key(9, 4),
        last: key(16, 16),
    };
    set_inner(index, 3, root_of(2, left, right));
}

impl Damage {
    pub fn inflict(&self, index: &mut [u8]) {
        match *self {
            Damage::Nothing => {}
            Damage::IndexSize(pages) => set_index_size(index, pages),
            Damage::Features(d) => set_features(index, d),
            Damage::RootPage(page) => set_root_page(index, page),
            Damage::RootLevel(level) => set_root_level(index, level),
            Damage::Total(n) => set_total_records(index, n),
            Damage::FreshPage(page) => set_fresh_page(index, page),
            Damage::FreedHead(page) => set_freed_head(index, page),
            Damage::Free(page) => free_page(index, page),
            Damage::FreeRoot => {
                free_page(index, 3);
                set_root_level(index, 0);
            }
            Damage::Record { side, at, id, slot } => {
                set_record(index, side, at, record(id, slot));
            }
            Damage::Stage(stage) => {
                let stamp = u32::MAX;
                let r = record(12, 1012);
                set_record(index, Side::Right, 3, Record { stage, stamp, ..r });
            }
            Damage::Count(n) => set_leaf(index, 2, leaf(9, n)),
            Damage::Byte { at, value } => {
                if let Some(byte) = index.get_mut(at) {
                    *byte = value;
                }
            }
            Damage::Root(count, left, right) => set_root(index, count, left, right),
            Damage::FreshLeaf => set_fresh_leaf(index),
            Damage::FreedLeaf => set_freed_leaf(index),
        }
    }
}

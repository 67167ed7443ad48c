// The sound index, and the pages that it is built of.
ghost use Rattle.std.specs.Prelude.{◌≤◌};

use geometry::{Height, Key, Pyramid};
use pagestore::{
    Entry, Inner, Leaf, Record, make, set_fresh_page, set_inner, set_leaf, set_root_level,
    set_root_page, set_total_records,
};
use pagestore_free::free_page;

// The record of an identifier, with its coordinate as it is stored.
pub fn record(id: u32, slot: u16) -> Record {
    let mut coords = [1000; 16];
    coords[0] = slot;
    Record {
        id,
        stage: 0,
        stamp: 0,
        coords,
    }
}

// A leaf of the eight points from n on, identifier m at the coordinate m; a count of 8 is right.
pub fn leaf(n: u16, count: usize) -> Leaf
    requires { n ≤ 50 }
{
    let mut records = [record(u32::from(n), 1000 + n); 16];
    for (i, r) in records.iter_mut().enumerate().take(8) {
        let m = n + i as u16;
        *r = record(u32::from(m), 1000 + m);
    }
    Leaf { count, records }
}

// What an entry of the root says: a page, with the points from `first` to `last`.
#[derive(Clone, Copy)]
pub struct Span {
    pub child: u32,
    pub first: u16,
    pub last: u16,
}

// The entries of the sound root.
pub const LEFT: Span = Span {
    child: 1,
    first: 1,
    last: 8,
};

pub const RIGHT: Span = Span {
    child: 2,
    first: 9,
    last: 16,
};

pub fn key(height: u16, id: u32) -> Key {
    Key {
        pyramid: Pyramid(1),
        height: Height(height),
        id,
    }
}

fn entry(s: Span) -> Entry {
    Entry {
        child: s.child,
        first: key(s.first, u32::from(s.first)),
        last: key(s.last, u32::from(s.last)),
    }
}

pub fn root_of(count: usize, e: Entry, f: Entry) -> Inner {
    let mut entries = [e; 16];
    entries[1] = f;
    Inner {
        level: 1,
        count,
        entries,
    }
}

// Writes the root over two pages.
pub fn set_root(index: &mut [u8], count: usize, left: Span, right: Span) {
    set_inner(index, 3, root_of(count, entry(left), entry(right)));
}

pub fn build(index: &mut [u8]) {
    make(index, 1);
    set_leaf(index, 1, leaf(1, 8));
    set_leaf(index, 2, leaf(9, 8));
    set_root(index, 2, LEFT, RIGHT);
    set_root_page(index, 3);
    set_root_level(index, 1);
    set_total_records(index, 16);
    set_fresh_page(index, 5);
    free_page(index, 4);
}

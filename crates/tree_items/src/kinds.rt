// The two kinds of pages: what reads the items of a page, what writes a page, and what its entry is.
ghost use Rattle.std.specs.Prelude.{◌≡◌, ℕ, List, ◌≤◌, length};
ghost use Rattle.pagestore_page.specs.declared.Entry.{Entry};
ghost use Rattle.pagestore.specs.Store.{leaf_at, inner_at, records_in, entries_in, set_leaf};
ghost use Rattle.tree_core.specs.Entries.{leaf_entry, inner_entry};
ghost use Rattle.tree_core.specs.Held.{Held};
ghost use Rattle.tree_core.specs.Insertion.{write_inner};

use pagestore::{
    Entry, Inner, Leaf, MAX_ITEMS, Record, filled, inner_at, leaf_at, set_inner, set_leaf,
};
use pagestore_page::{no_entry, no_record};
use tree_core::{inner_entry, leaf_entry};

pub trait Kind: Copy {
    type Item: Copy;

    ghost items_at: { Self → List ℕ → ℕ → List Self.Item };

    ghost write: { Self → List ℕ → ℕ → List Self.Item → List ℕ };

    ghost entry: { Self → ℕ → List Self.Item → Entry };

    // Reads the items of a page into slots.
    fn read(self, index: &[u8], page: u32, slots: &mut [Self::Item]) -> usize
        requires { 16 ≤ length slots.old }
        ensures held { Held result slots.new (items_at self index.now page) }
        ensures most { result ≤ 16 }
        ensures slots { length slots.new ≡ length slots.old };

    // Writes a page of the items; its entry.
    fn write(self, index: &mut [u8], page: u32, items: &[Self::Item]) -> Entry
        requires { length items.now ≤ 16 }
        ensures bytes { index.new ≡ write self index.old page items.now }
        ensures entry { result ≡ entry self page items.now };
}

// The leaves of an index of so many features: their items are records.
#[derive(Clone, Copy)]
pub struct Leaves {
    pub features: u8,
}

impl Kind for Leaves {
    type Item = Record;

    ghost items_at = { λ s b p. records_in (leaf_at b p) };

    ghost write = { λ s. set_leaf };

    ghost entry = { λ s. leaf_entry s.features };

    fn read(self, index: &[u8], page: u32, slots: &mut [Record]) -> usize {
        let leaf = leaf_at(index, page);
        let n = filled(leaf.count);
        slots[..n].copy_from_slice(&leaf.records[..n]);
        n
    }

    fn write(self, index: &mut [u8], page: u32, items: &[Record]) -> Entry {
        let n = items.len();
        let mut records = [no_record(); MAX_ITEMS];
        records[..n].copy_from_slice(items);
        let leaf = Leaf { count: n, records };
        set_leaf(index, page, leaf);
        leaf_entry(page, leaf, self.features)
    }
}

// The inner pages of a level: their items are entries.
#[derive(Clone, Copy)]
pub struct Inners {
    pub level: u8,
}

impl Kind for Inners {
    type Item = Entry;

    ghost items_at = { λ s b p. entries_in (inner_at b p) };

    ghost write = { λ s. write_inner s.level };

    ghost entry = { λ s. inner_entry };

    fn read(self, index: &[u8], page: u32, slots: &mut [Entry]) -> usize {
        let inner = inner_at(index, page);
        let n = filled(inner.count);
        slots[..n].copy_from_slice(&inner.entries[..n]);
        n
    }

    fn write(self, index: &mut [u8], page: u32, items: &[Entry]) -> Entry {
        let n = items.len();
        let mut entries = [no_entry(); MAX_ITEMS];
        entries[..n].copy_from_slice(items);
        let inner = Inner {
            level: self.level,
            count: n,
            entries,
        };
        set_inner(index, page, inner);
        inner_entry(page, inner)
    }
}

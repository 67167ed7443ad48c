// The leaves of an index in key order, found apart from the search.
ghost use Rattle.std.specs.Prelude.{◌≤◌, length};

use pagestore::{MAX_ITEMS, inner_at, root_level, root_page};

// The most pages listed.
pub const MAX_LEAVES: usize = 1024;

// A list of pages.
// Kept: an array with the number of its pages beside, as there is no heap.
#[derive(Drop)]
pub struct Pages {
    numbers: [u32; MAX_LEAVES],
    count: usize,
    ghost in_room: { count ≤ 1024 },
}

impl Pages {
    fn new() -> Self {
        Pages {
            numbers: [0; MAX_LEAVES],
            count: 0,
        }
    }

    // Puts one page at the end of the list, if there is room.
    fn push(&mut self, page: u32) {
        if self.count < MAX_LEAVES {
            self.numbers[self.count] = page;
            self.count += 1;
        }
    }

    pub fn as_slice(&self) -> &[u32]
        ensures { length result.now ≤ 1024 }
    {
        &self.numbers[..self.count]
    }
}

// The children of some pages.
fn children(index: &[u8], above: &Pages) -> Pages {
    let mut below = Pages::new();
    for page in above.as_slice() {
        let inner = inner_at(index, *page);
        for entry in &inner.entries[..inner.count.min(MAX_ITEMS)] {
            below.push(entry.child);
        }
    }
    below
}

// The leaves of an index in key order.
pub fn leaves(index: &[u8]) -> Pages {
    let mut pages = Pages::new();
    pages.push(root_page(index));
    for _ in 0..root_level(index) {
        pages = children(index, &pages);
    }
    pages
}

// How many pages are free.
ghost use Rattle.std.specs.Prelude.{◌≡◌, length};
ghost use Rattle.pagestore.specs.Store.{freed_at, fresh_at, free_at};

use crate::header::{freed_head, fresh_page};
use crate::pages::{in_range, link_at, page_count};

// The freed pages: their chain is followed for at most as many links as there are pages.
fn freed_count(index: &[u8]) -> u32
    ensures { result ≡ length (freed_at index.now) }
{
    let pages = page_count(index);
    let mut page = freed_head(index);
    for n in 0..pages {
        if !in_range(index, page) {
            return n;
        }
        page = link_at(index, page);
    }
    pages
}

// The pages never used.
pub fn fresh_count(index: &[u8]) -> u32
    ensures { result ≡ length (fresh_at index.now) }
{
    let fresh = fresh_page(index);
    if in_range(index, fresh) {
        page_count(index) - fresh
    } else {
        0
    }
}

// The pages that can be taken.
pub fn free_count(index: &[u8]) -> u32
    ensures { result ≡ length (free_at index.now) }
{
    freed_count(index) + fresh_count(index)
}

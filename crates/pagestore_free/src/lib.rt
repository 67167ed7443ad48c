// Free pages: taking one, and freeing one.
#![tactic(auto)]

ghost use Rattle.std.specs.Prelude.{◌≡◌};
ghost use Rattle.pagestore.specs.Store.{page_taken, take_page, free_page};

use pagestore::{
    freed_head, fresh_page, in_range, link_at, set_freed_head, set_fresh_page, set_link,
};

// Takes a page: the one freed last, else the lowest never used; 0 if there is none.
// Kept: 0, and no Option. `page_taken` is a number, and a caller writes at the page whatever it is: `take_page(index).unwrap_or(0)` each time.
pub fn take_page(index: &mut [u8]) -> u32
    ensures { (result ≡ page_taken index.old) × (index.new ≡ take_page index.old) }
{
    let freed = freed_head(index);
    if in_range(index, freed) {
        let next = link_at(index, freed);
        set_freed_head(index, next);
        return freed;
    }
    let fresh = fresh_page(index);
    if in_range(index, fresh) {
        set_fresh_page(index, fresh + 1);
        return fresh;
    }
    0
}

// Frees a page: it will be the next one taken. Out of range it does nothing.
pub fn free_page(index: &mut [u8], page: u32)
    ensures { index.new ≡ free_page index.old page }
{
    if in_range(index, page) {
        let freed = freed_head(index);
        set_link(index, page, freed);
        set_freed_head(index, page);
    }
}

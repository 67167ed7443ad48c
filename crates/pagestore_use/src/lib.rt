// A use of the page store by its published laws alone: a leaf moves to a new page.
#![tactic(auto)]

ghost use Rattle.std.specs.Prelude.{◌≡◌};
ghost use Rattle.pagestore.specs.Store.{page_taken};
ghost use Rattle.pagestore_use.specs.Moved.{moved_to};

// Moves the leaf at a page to the page that is taken next, and frees its own page. Returns the new page.
pub fn move_leaf(index: &mut [u8], page: u32) -> u32
    ensures { (result ≡ page_taken index.old) × (index.new ≡ moved_to index.old page) }
{
    let leaf = pagestore::leaf_at(index, page);
    let new = pagestore_free::take_page(index);
    pagestore::set_leaf(index, new, leaf);
    pagestore_free::free_page(index, page);
    new
}

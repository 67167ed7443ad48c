// Leaf pages written by page number.
ghost use Rattle.std.specs.Prelude.{◌≡◌};
ghost use Rattle.pagestore_page.specs.Layout.{records_in};
ghost use Rattle.pagestore.specs.Store.{set_leaf};

use crate::pages::write_page;
use pagestore_page::{Leaf, write_leaf};

// Writes a leaf at a page; out of range it does nothing. Of a count above 16 the 16 records are written.
pub fn set_leaf(index: &mut [u8], page: u32, leaf: Leaf)
    ensures { index.new ≡ set_leaf index.old page (records_in leaf) }
{
    write_page(index, page, |bytes| write_leaf(bytes, leaf));
}

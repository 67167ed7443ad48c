// Inner pages written by page number.
ghost use Rattle.std.specs.Prelude.{◌≡◌};
ghost use Rattle.pagestore_page.specs.Layout.{entries_in};
ghost use Rattle.pagestore.specs.Store.{set_inner};

use crate::pages::write_page;
use pagestore_page::{Inner, write_inner};

// Writes an inner page at a page number; out of range it does nothing.
pub fn set_inner(index: &mut [u8], page: u32, inner: Inner)
    ensures { index.new ≡ set_inner index.old page inner.level (entries_in inner) }
{
    write_page(index, page, |bytes| write_inner(bytes, inner));
}

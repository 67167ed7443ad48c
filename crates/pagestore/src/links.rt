// Freed pages written by page number.
ghost use Rattle.std.specs.Prelude.{◌≡◌};
ghost use Rattle.pagestore.specs.Store.{set_link};

use crate::pages::write_page;
use pagestore_page::write_freed;

// Writes a freed page with its link; out of range it does nothing.
pub fn set_link(index: &mut [u8], page: u32, next: u32)
    ensures { index.new ≡ set_link index.old page next }
{
    write_page(index, page, |bytes| write_freed(bytes, next));
}

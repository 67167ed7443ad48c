// A freed page, and its link to the page freed before it.
ghost use Rattle.std.specs.Prelude.{◌≡◌, length};
ghost use Rattle.pagestore_page.specs.Layout.{link_of, freed_bytes};

use pagestore_bytes::{Number, clear};

// Where the link stands.
const LINK: usize = 4;

pub fn read_link(page: &[u8]) -> u32
    requires { length page.now ≡ 1024 }
    ensures { result ≡ link_of page.now }
{
    u32::read(page, LINK)
}

pub fn write_freed(page: &mut [u8], next: u32)
    requires { length page.old ≡ 1024 }
    ensures { page.new ≡ freed_bytes next }
{
    0u32.write(page, 0);
    next.write(page, LINK);
    clear(&mut page[8..]);
}

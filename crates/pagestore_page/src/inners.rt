// Inner pages: an entry read, a page written.
ghost use Rattle.std.specs.Prelude.{◌≡◌, [], ◌<◌, length, get_or};
ghost use Rattle.pagestore_page.specs.Layout.{no_entry, entry_at, inner_of, inner_bytes, entries_in};

use crate::items::{filled, get_entry, put_entry, put_head};
use crate::{Entry, Inner};
use geometry::{Height, Key, Pyramid};
use pagestore_bytes::clear;

// Where the entries begin.
const ENTRIES: usize = 4;
// The size of an entry.
const ENTRY: usize = 20;

pub fn no_entry() -> Entry
    ensures { result ≡ entry_at [] 0 }
{
    let key = Key {
        pyramid: Pyramid(0),
        height: Height(0),
        id: 0,
    };
    Entry {
        child: 0,
        first: key,
        last: key,
    }
}

// One entry of an inner page, read from its page.
pub fn read_entry(page: &[u8], i: usize) -> Entry
    requires { (length page.now ≡ 1024) × (i < 16) }
    ensures { result ≡ get_or (inner_of page.now).entries i no_entry }
{
    get_entry(page, ENTRIES + ENTRY * i)
}

// Writes an inner page into its page's own stretch, all 1,024 bytes.
pub fn write_inner(page: &mut [u8], inner: Inner)
    requires { length page.old ≡ 1024 }
    ensures { page.new ≡ inner_bytes inner.level (entries_in inner) }
{
    let n = filled(inner.count);
    put_head(page, inner.level, n);
    for i in 0..n {
        put_entry(page, ENTRIES + ENTRY * i, inner.entries[i]);
    }
    let at = ENTRIES + ENTRY * n;
    clear(&mut page[at..]);
}

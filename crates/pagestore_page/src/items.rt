// Keys and inner entries in a page, and its head.
ghost use Rattle.std.specs.Prelude.{◌≡◌, [], ◌∷◌, ◌+◌, ◌≤◌, min, length};
ghost use Rattle.pagestore_bytes.specs.Bytes.{put};
ghost use Rattle.pagestore_page.specs.Layout.{key_at, key_bytes, entry_at, entry_bytes};

use crate::{Entry, MAX_ITEMS};
use geometry::{Height, Key, Pyramid};
use pagestore_bytes::Number;

pub fn get_key(s: &[u8], at: usize) -> Key
    requires { at + 8 ≤ length s.now }
    ensures { result ≡ key_at s.now at }
{
    Key {
        pyramid: Pyramid(s[at + 6]),
        height: Height(u16::read(s, at + 4)),
        id: u32::read(s, at),
    }
}

pub fn put_key(s: &mut [u8], at: usize, k: Key)
    requires { at + 8 ≤ length s.old }
    ensures { s.new ≡ put s.old at (key_bytes k) }
{
    k.id.write(s, at);
    k.height.0.write(s, at + 4);
    s[at + 6] = k.pyramid.0;
    s[at + 7] = 0;
}

pub fn get_entry(s: &[u8], at: usize) -> Entry
    requires { at + 20 ≤ length s.now }
    ensures { result ≡ entry_at s.now at }
{
    Entry {
        child: u32::read(s, at),
        first: get_key(s, at + 4),
        last: get_key(s, at + 12),
    }
}

pub fn put_entry(s: &mut [u8], at: usize, e: Entry)
    requires { at + 20 ≤ length s.old }
    ensures { s.new ≡ put s.old at (entry_bytes e) }
{
    e.child.write(s, at);
    put_key(s, at + 4, e.first);
    put_key(s, at + 12, e.last);
}

// How many items there are of a count as stored: a page has room for 16.
pub fn filled(count: usize) -> usize
    ensures { result ≡ min 16 count }
{
    count.min(MAX_ITEMS)
}

pub fn put_head(page: &mut [u8], level: u8, count: usize)
    requires { (4 ≤ length page.old) × (count ≤ 16) }
    ensures { page.new ≡ put page.old 0 (level ∷ count ∷ 0 ∷ 0 ∷ []) }
{
    page[0] = level;
    page[1] = count as u8;
    page[2] = 0;
    page[3] = 0;
}

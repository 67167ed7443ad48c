// Pages read by page number.
ghost use Rattle.std.specs.Prelude.{◌≡◌, ℕ, List, [], ◌<◌, length, get_or, MatchOption};
ghost use Rattle.std.specs.Fn.{FnOnceReturnsAtMut};
ghost use Rattle.pagestore_bytes.specs.Bytes.{byte_at};
ghost use Rattle.pagestore_page.specs.Layout.{no_record, no_entry};
ghost use Rattle.pagestore.specs.Store.{pages_in, in_range, stretch, set_stretch, leaf_at, inner_at, level_at, count_at, link_at};

use pagestore_page::{
    Entry, Inner, Leaf, MAX_ITEMS, MAX_PAGES, PAGE_SIZE, Record, empty_leaf, no_entry, no_record,
    read_entry, read_ident, read_leaf, read_link, read_record,
};

// The number of whole pages lent; no index has more than 16,384.
pub fn page_count(index: &[u8]) -> u32
    ensures { result ≡ pages_in index.now }
{
    (index.len() / PAGE_SIZE).min(MAX_PAGES as usize) as u32
}

// Is this a page of the index other than the header?
pub fn in_range(index: &[u8], page: u32) -> bool
    ensures { result ≡ in_range index.now page }
{
    (1..page_count(index)).contains(&page)
}

// The bytes of a page, its own stretch of the index; none out of range.
// Kept: no Option, as `page_bytes` gives. What `stretch` promises of a page out of range, no bytes, is a part without bytes.
pub fn stretch(index: &[u8], page: u32) -> &[u8]
    ensures { result.now ≡ stretch index.now page }
{
    if in_range(index, page) {
        let at = page as usize * PAGE_SIZE;
        &index[at..at + PAGE_SIZE]
    } else {
        &index[0..0]
    }
}

// The same, if the page is one.
fn page_bytes(index: &[u8], page: u32) -> Option<&[u8]>
    ensures { MatchOption result (stretch index.now page ≡ []) (λ s. (s.now ≡ stretch index.now page) × (length s.now ≡ 1024)) }
{
    let bytes = stretch(index, page);
    if bytes.len() < PAGE_SIZE {
        None
    } else {
        Some(bytes)
    }
}

// Has a page's own stretch of the index written; out of range it does nothing.
pub fn write_page<F: FnOnce(&mut [u8])>(index: &mut [u8], page: u32, write: F)
    requires { (x : _) → length x.now ≡ 1024 → F.pre write x }
    ensures { (xs : List ℕ) → ((s t : List ℕ) → length s ≡ 1024 → FnOnceReturnsAtMut F.FnOnce write s tt t → t ≡ xs) → index.new ≡ set_stretch index.old page xs }
{
    if in_range(index, page) {
        let at = page as usize * PAGE_SIZE;
        write(&mut index[at..at + PAGE_SIZE]);
    }
}

// A byte of a page; 0 out of range.
fn byte_of(index: &[u8], page: u32, i: usize) -> u8
    requires { i < 1024 }
    ensures { result ≡ byte_at (stretch index.now page) i }
{
    match page_bytes(index, page) {
        Some(bytes) => bytes[i],
        None => 0,
    }
}

// The level byte of a page; 0 out of range.
pub fn level_at(index: &[u8], page: u32) -> u8
    ensures { result ≡ level_at index.now page }
{
    byte_of(index, page, 0)
}

// The count byte of a page, as stored; 0 out of range.
pub fn count_at(index: &[u8], page: u32) -> u8
    ensures { result ≡ count_at index.now page }
{
    byte_of(index, page, 1)
}

// The page that was freed before a freed page; 0 out of range.
pub fn link_at(index: &[u8], page: u32) -> u32
    ensures { result ≡ link_at index.now page }
{
    match page_bytes(index, page) {
        Some(bytes) => read_link(bytes),
        None => 0,
    }
}

// The leaf at a page; out of range an empty one.
pub fn leaf_at(index: &[u8], page: u32) -> Leaf
    ensures { result ≡ leaf_at index.now page }
{
    match page_bytes(index, page) {
        Some(bytes) => read_leaf(bytes),
        None => empty_leaf(),
    }
}

// The inner page at a page number; out of range an empty one.
pub fn inner_at(index: &[u8], page: u32) -> Inner
    ensures { result ≡ inner_at index.now page }
{
    let mut entries = [no_entry(); MAX_ITEMS];
    for i in 0..MAX_ITEMS {
        entries[i] = entry_at(index, page, i);
    }
    Inner {
        level: level_at(index, page),
        count: count_at(index, page) as usize,
        entries,
    }
}

// One record of the leaf at a page; out of range an empty one.
pub fn record_at(index: &[u8], page: u32, i: usize) -> Record
    requires { i < 16 }
    ensures { result ≡ get_or (leaf_at index.now page).records i no_record }
{
    match page_bytes(index, page) {
        Some(bytes) => read_record(bytes, i),
        None => no_record(),
    }
}

// The identifier of that record; out of range 0.
pub fn ident_at(index: &[u8], page: u32, i: usize) -> u32
    requires { i < 16 }
    ensures { result ≡ (get_or (leaf_at index.now page).records i no_record).id }
{
    match page_bytes(index, page) {
        Some(bytes) => read_ident(bytes, i),
        None => 0,
    }
}

// One entry of the inner page at a page number; out of range an empty one.
pub fn entry_at(index: &[u8], page: u32, i: usize) -> Entry
    requires { i < 16 }
    ensures { result ≡ get_or (inner_at index.now page).entries i no_entry }
{
    match page_bytes(index, page) {
        Some(bytes) => read_entry(bytes, i),
        None => no_entry(),
    }
}

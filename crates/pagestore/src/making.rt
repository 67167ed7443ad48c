// A new index.
ghost use Rattle.std.specs.Prelude.{◌≡◌};
ghost use Rattle.pagestore.specs.Store.{clear_header, new_index};

use crate::header::{set_features, set_fresh_page, set_index_size, set_root_page};
use crate::leaves::set_leaf;
use crate::pages::page_count;
use pagestore_bytes::clear;
use pagestore_page::{PAGE_SIZE, empty_leaf};

fn clear_header(index: &mut [u8])
    ensures { index.new ≡ clear_header index.old }
{
    if PAGE_SIZE <= index.len() {
        clear(&mut index[0..PAGE_SIZE]);
    }
}

// A new index in the lent bytes: the header, page 1 an empty root leaf, the rest never used and as it was.
pub fn make(index: &mut [u8], features: u8)
    ensures { index.new ≡ new_index index.old features }
{
    let n = page_count(index);
    clear_header(index);
    set_index_size(index, n);
    set_features(index, features);
    set_root_page(index, 1);
    set_fresh_page(index, 2);
    set_leaf(index, 1, empty_leaf());
}

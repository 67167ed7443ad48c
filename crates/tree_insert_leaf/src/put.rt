// Items put to a page.
ghost use Rattle.std.specs.Prelude.{◌≤◌, length};
ghost use Rattle.tree_core.specs.Insertion.{put};
ghost use Rattle.tree_core.specs.CodeTerms.{RewriteDone};

use pagestore::MAX_ITEMS;
use pagestore_free::take_page;
use tree_core::Grown;
use tree_items::{KEPT_ITEMS, Kind};

// Puts items to a page. Of one item too many the first 9 stay, and the last 8 go to a new page on the right.
pub fn put_items<K: Kind>(kind: K, index: &mut [u8], page: u32, items: &[K::Item]) -> Grown
    requires { length items.now ≤ 17 }
    ensures { RewriteDone (put (K.write kind) (K.entry kind) index.old page items.now) index.new result }
{
    if items.len() <= MAX_ITEMS {
        return Grown::One(kind.write(index, page, items));
    }
    let (low, high) = items.split_at(KEPT_ITEMS);
    let right = take_page(index);
    Grown::Two(kind.write(index, page, low), kind.write(index, right, high))
}

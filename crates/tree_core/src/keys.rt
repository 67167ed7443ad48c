// Keys of records.
ghost use Rattle.std.specs.Prelude.{◌≡◌, min};
ghost use Rattle.pagestore.specs.Store.{count_at};
ghost use Rattle.tree_model.specs.Trees.{key_of, rank_of};

use geometry::keys::{key_number, key_of};
use geometry::points::pair_of;
use geometry::{Height, Key, Pyramid};
use pagestore::{MAX_ITEMS, Record, count_at, filled};

// The slots that the count of a page takes in.
pub fn filled_at(index: &[u8], page: u32) -> usize
    ensures { result ≡ min 16 (count_at index.now page) }
{
    filled(count_at(index, page) as usize)
}

// The key of a record whose first d slots are its point.
pub fn record_key(x: Record, d: u8) -> Key
    ensures { result ≡ key_of d x }
{
    let n = filled(d as usize);
    if n == 0 {
        return Key {
            pyramid: Pyramid(0),
            height: Height(0),
            id: x.id,
        };
    }
    key_of(pair_of(&x.coords[..n]), x.id)
}

// Its place in the order of keys, as a number.
pub fn record_rank(x: Record, d: u8) -> u64
    ensures { result ≡ rank_of d x }
{
    key_number(record_key(x, d))
}

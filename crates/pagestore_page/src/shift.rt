// A record put into a leaf held by value: those behind it shift in place.
ghost use Rattle.std.specs.Prelude.{◌≡◌, ◌+◌, ◌<◌, ◌≤◌};
ghost use Rattle.lists.specs.Shift.{insert_at};
ghost use Rattle.pagestore_page.specs.Layout.{records_in};

use crate::{Leaf, Record};

pub fn insert_record(leaf: Leaf, at: usize, r: Record) -> Leaf
    requires { (leaf.count < 16) × (at ≤ leaf.count) }
    ensures { (result.count ≡ leaf.count + 1) × (records_in result ≡ insert_at (records_in leaf) at r) }
{
    let n = leaf.count;
    let mut rs = leaf.records;
    for i in (at..n).rev() {
        rs[i + 1] = rs[i];
    }
    rs[at] = r;
    Leaf {
        count: n + 1,
        records: rs,
    }
}

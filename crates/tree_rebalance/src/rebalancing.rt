// Two neighbours rebalanced: one gives the other its nearest item, or the two merge in the left page.
ghost use Rattle.std.specs.Prelude.{◌≡◌, ◌≤◌, ◌++◌, length};
ghost use Rattle.tree_core.specs.Deletion.{put_rebalanced, rebalanced_pages};
ghost use Rattle.tree_core.specs.CodeTerms.{RewriteDone};
ghost use Rattle.tree_core.specs.Held.{Held};
ghost use Rattle.tree_model.specs.Deleting.{rebalanced_items};

use pagestore::MAX_ITEMS;
use pagestore_free::free_page;
use pagestore_page::{no_entry, no_record};
use tree_core::Grown;
use tree_items::{Inners, Kind, Leaves};
use tree_partner::left_count;

// There is room for the items of both.
const BOTH: usize = 2 * MAX_ITEMS;

// Rebalances neighbours of one kind; their items are laid out in slots.
#[tactic(auto, using(crate::proofs::Pairs::both_held))]
fn rebalance<K: Kind>(kind: K, index: &mut [u8], p: u32, q: u32, slots: &mut [K::Item]) -> Grown
    requires { 32 ≤ length slots.old }
    ensures done { RewriteDone (put_rebalanced (K.write kind) (K.entry kind) index.old p q
        (rebalanced_items (K.items_at kind index.old p) (K.items_at kind index.old q))) index.new result }
    ensures held { let both = K.items_at kind index.old p ++ K.items_at kind index.old q in Held (length both) slots.new both }
    ensures slots { length slots.new ≡ length slots.old }
{
    let n = kind.read(index, p, slots);
    let m = kind.read(index, q, &mut slots[n..]);
    let items = &slots[..n + m];
    let k = left_count(n, m);
    if k == n + m {
        let merged = kind.write(index, p, items);
        free_page(index, q);
        return Grown::One(merged);
    }
    let (low, high) = items.split_at(k);
    let low = kind.write(index, p, low);
    let high = kind.write(index, q, high);
    Grown::Two(low, high)
}

// Rebalances the neighbours p and q of a level.
pub fn rebalance_pages(index: &mut [u8], p: u32, q: u32, level: u8, d: u8) -> Grown
    ensures { RewriteDone (rebalanced_pages d level index.old p q) index.new result }
{
    if level == 0 {
        let kind = Leaves { features: d };
        rebalance(kind, index, p, q, &mut [no_record(); BOTH])
    } else {
        rebalance(Inners { level }, index, p, q, &mut [no_entry(); BOTH])
    }
}

// Numbers of items and places of children: which two pages are rebalanced, and how many items the left one is to hold.
ghost use Rattle.std.specs.Prelude.{◌≡◌, ◌+◌, ◌≤◌};
ghost use Rattle.tree_model.specs.Deleting.{left_count, left_of};

use pagestore::MIN_ITEMS;
use std::cmp::Ordering;

// The left one of child i and its partner, of n children.
#[tactic(auto, using(tree_core::proofs::DeletionLaws::left_next, tree_core::proofs::DeletionLaws::left_before))]
pub fn left_of(i: usize, n: usize) -> usize
    requires { (i ≤ 15) × (n ≤ 16) }
    ensures { (result ≡ left_of i n) × (result ≤ 14) }
{
    if i + 1 < n { i } else { i.saturating_sub(1) }
}

// Of neighbours with n and m items, how many the left one is to hold: all of them if they merge.
#[tactic(auto, unfolding(tree_model::specs::Deleting::left_count))]
pub fn left_count(n: usize, m: usize) -> usize
    requires { (n ≤ 16) × (m ≤ 16) }
    ensures { (result ≡ left_count n m) × (result ≤ 16) × (result ≤ n + m) × (n ≤ result + 1) × (n + m ≤ 16 + result) }
{
    match (n.cmp(&MIN_ITEMS), m.cmp(&MIN_ITEMS)) {
        (Ordering::Less, Ordering::Greater) => n + 1,
        (Ordering::Greater, Ordering::Less) => n - 1,
        (Ordering::Less, _) | (_, Ordering::Less) => n + m,
        _ => n,
    }
}

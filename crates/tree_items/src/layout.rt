// Items laid out with some of them replaced.
ghost use Rattle.std.specs.Prelude.{◌≡◌, ◌+◌, ◌-◌, ◌≤◌, ◌++◌, min, length, take, drop};
ghost use Rattle.tree_core.specs.Held.{Held};
ghost use Rattle.tree_core.specs.CodeTerms.{grown_list};

use pagestore::Entry;
use tree_core::Grown;

// Lays items behind the first n slots; how many are then laid out.
fn append<T: Copy>(slots: &mut [T], n: usize, items: &[T]) -> usize
    requires { n + length items.now ≤ length slots.old }
    ensures count { result ≡ n + length items.now }
    ensures items { take result slots.new ≡ take n slots.old ++ items.now }
    ensures slots { length slots.new ≡ length slots.old }
{
    let end = n + items.len();
    slots[n..end].copy_from_slice(items);
    end
}

// Lays out items, of which those from one place up to another have given way to others.
pub fn splice<T: Copy>(slots: &mut [T], items: &[T], from: usize, to: usize, others: &[T]) -> usize
    requires { (from ≤ to) × (min from (length items.now) + (length others.now + (length items.now - to)) ≤ length slots.old) }
    ensures held { Held result slots.new (take from items.now ++ (others.now ++ drop to items.now)) }
    ensures slots { length slots.new ≡ length slots.old }
{
    let count = items.len();
    let before = append(slots, 0, &items[..from.min(count)]);
    let with = append(slots, before, others);
    append(slots, with, &items[to.min(count)..])
}

// The same of entries, which give way to those of the pages that they have become. Inlined, so that LLVM sees slots and items in arrays apart and copies
// by C's `memcpy`: where it does not, it wants `memmove`, which the library is not to need.
#[inline(always)]
pub fn splice_grown(
    slots: &mut [Entry],
    items: &[Entry],
    from: usize,
    to: usize,
    grown: Grown,
) -> usize
    requires { (from ≤ to) × (min from (length items.now) + (2 + (length items.now - to)) ≤ length slots.old) }
    ensures held { Held result slots.new (take from items.now ++ (grown_list grown ++ drop to items.now)) }
    ensures slots { length slots.new ≡ length slots.old }
{
    match grown {
        Grown::One(e) => splice(slots, items, from, to, &[e]),
        Grown::Two(e, f) => splice(slots, items, from, to, &[e, f]),
    }
}

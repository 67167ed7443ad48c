// A min-heap with four children a place in the first n numbers of a lent slice: push and pop.
// A number on its way down or up moves those it passes by one place, and is put down where it ends.
#![tactic(auto)]

ghost use Rattle.std.specs.Prelude.{◌≡◌, ◌+◌, ◌≤◌, ◌<◌, min, length, set};
ghost use Rattle.search_heap.specs.Heap.{Heap, Pushed, Popped};
ghost use Rattle.search_heap.specs.Sifting.{Sinking, Rising, lower_of, LeastIn, Sifted};

// That of two places which holds the lower number.
fn lower(a: &[u64], i: usize, j: usize) -> usize
    requires { (i < length a.now) × (j < length a.now) }
    ensures { result ≡ lower_of a.now i j }
{
    if a[j] < a[i] { j } else { i }
}

// The place of the least of the first n from `left` on.
fn least_from(a: &[u64], n: usize, left: usize) -> usize
    requires { (n ≤ length a.now) × (left < n) }
    ensures { LeastIn left n a.now result }
{
    let mut c = left;
    for i in left + 1..n {
        c = lower(a, c, i);
    }
    c
}

// The lowest of the four children from `left` on, as far as they are among the first n.
fn lowest_child(a: &[u64], n: usize, left: usize) -> usize
    requires { (n ≤ length a.now) × (left < n) }
    ensures { LeastIn left (min (left + 4) n) a.now result }
{
    if left + 3 < n {
        let c = lower(a, left, left + 1);
        let e = lower(a, left + 2, left + 3);
        return lower(a, c, e);
    }
    least_from(a, n, left)
}

// Moves x down from the top of the first n.
fn sink(a: &mut [u64], n: usize, x: u64)
    requires { Sinking n 0 (set a.old 0 x) }
    ensures { Sifted n 0 x a.old a.new }
{
    let mut h = 0;
    loop {
        let left = 4 * h + 1;
        if n <= left {
            a[h] = x;
            return;
        }
        let c = lowest_child(a, n, left);
        if x <= a[c] {
            a[h] = x;
            return;
        }
        a[h] = a[c];
        h = c;
    }
}

// Moves x up from behind the first n.
fn rise(a: &mut [u64], n: usize, x: u64)
    requires { Rising (n + 1) n (set a.old n x) }
    ensures { Sifted (n + 1) n x a.old a.new }
{
    let mut h = n;
    loop {
        if h == 0 {
            a[h] = x;
            return;
        }
        let p = (h - 1) / 4;
        if a[p] <= x {
            a[h] = x;
            return;
        }
        a[h] = a[p];
        h = p;
    }
}

// Puts x into the heap of the first n; their number then. A full slice takes nothing.
pub fn push(a: &mut [u64], n: usize, x: u64) -> usize
    requires { Heap n a.old }
    ensures { Pushed n x a.old result a.new }
{
    if a.len() <= n {
        return n;
    }
    rise(a, n, x);
    n + 1
}

// Takes the least out of the heap of the first n; n - 1 stay.
pub fn pop(a: &mut [u64], n: usize) -> u64
    requires { (1 ≤ n) × Heap n a.old }
    ensures { Popped n a.old result a.new }
{
    let least = a[0];
    let m = n - 1;
    let x = a[m];
    if 0 < m {
        sink(a, m, x);
    }
    least
}

// Identifiers in a chained hash table: those with the same low 14 bits are in one bucket, each bucket a chain from its last identifier to its first.
// A link is one more than a place, or 0 for none.
// Kept: links and pages with 0 for none, in place of an `Option<u16>`. The lent arrays would take twice their fixed memory for links, and
// `latest`, `Heads`, `Chained` and `lowest_repeat`, of which the contracts speak, have the 0.
#![tactic(auto)]

ghost use Rattle.std.specs.Prelude.{◌≡◌, ◌+◌, ◌≤◌, ◌<◌, ◌%◌, length, get_or};
ghost use Rattle.sound_chains.specs.Repeats.{lower_page};
ghost use Rattle.sound_chains.specs.Chains.{buckets, bucket_of, latest, met_of, Heads, Chained, Room};

// The buckets, as a number of identifiers is divided by it and as a number of places.
pub const BUCKETS: u32 = 16384;

pub const HEADS: usize = BUCKETS as usize;

fn bucket(x: u32) -> usize
    ensures { result ≡ x % buckets }
{
    (x % BUCKETS) as usize
}

// The lower of two pages, 0 being no page.
fn lower_page(p: u16, q: u16) -> u16
    ensures { result ≡ lower_page p q }
{
    if p == 0 {
        q
    } else if q == 0 {
        p
    } else {
        p.min(q)
    }
}

// The lowest page so far, after the identifier at i has met the one that k links to.
pub fn met(ids: &[u32], pages: &[u16], i: usize, k: usize, best: u16) -> u16
    requires { (i < length ids.now) × (k ≤ length ids.now) × (length pages.now ≡ length ids.now) }
    ensures { result ≡ met_of ids.now pages.now i k best }
{
    if k == 0 {
        return best;
    }
    let o = k - 1;
    if ids[o] != ids[i] {
        return best;
    }
    lower_page(best, lower_page(pages[i], pages[o]))
}

// Adds the identifier at i to its bucket's chain; the link to the one before it is returned.
pub fn chain(ids: &[u32], head: &mut [u16], next: &mut [u16], i: usize) -> usize
    requires { Room ids.now head.old next.old × (i < length ids.now)
        × Heads i ids.now head.old × Chained i ids.now next.old }
    ensures { (result ≡ latest ids.now (bucket_of (get_or ids.now i 0)) i)
        × Heads (i + 1) ids.now head.new × Chained (i + 1) ids.now next.new }
{
    let g = bucket(ids[i]);
    let before = head[g];
    next[i] = before;
    head[g] = (i + 1) as u16;
    usize::from(before)
}

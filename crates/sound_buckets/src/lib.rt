// Two ways to the lowest page that holds a repeated identifier, both by buckets. Few identifiers are compared with those of their bucket as they come,
// with at most nine each. Where that does not settle it, and for more identifiers, the buckets are walked one after the other, and a last-seen
// table says where the high 18 bits of each identifier were met last: two of a bucket with the same high bits are the same.
#![tactic(auto)]

ghost use Rattle.std.specs.Prelude.{◌≡◌, ◌+◌, ◌≤◌, ◌<◌, ◌/◌, IfSome, length, get_or};
ghost use Rattle.sound_chains.specs.Repeats.{lowest_repeat};
ghost use Rattle.sound_chains.specs.Chains.{buckets, max_idents, bucket_of, latest, Heads, Chained, Room, Blank};
ghost use Rattle.sound_buckets.specs.Buckets.{slots, slot_of, Stage, Probed};

use sound_chains::{BUCKETS, HEADS, chain, met};

// The most identifiers, and those that are few.
pub const MAX_IDENTS: usize = 65535;

pub const FEW_IDENTS: usize = 16384;

// So many that differ from an identifier come first in its chain before the search for it gives up.
const PASSES: usize = 9;

// The places of the last-seen table, one for each of the high bits.
const SLOTS: usize = 262144;

fn slot(x: u32) -> usize
    ensures { (result ≡ slot_of x) × (result < slots) }
{
    (x / BUCKETS) as usize
}

// Looks along a chain, from the place that `from` links to, for the identifier at i: the link to it, or 0 where the chain has none. Gives up where
// nine others come first.
fn probe(ids: &[u32], next: &[u16], i: usize, from: usize) -> Option<usize>
    requires { (length ids.now ≤ length next.now) × (i < length ids.now) × Chained i ids.now next.now
        × (from ≡ latest ids.now (bucket_of (get_or ids.now i 0)) i) }
    ensures { IfSome result (λ k. (k ≤ i) × Probed ids.now i (get_or ids.now i 0) k) }
{
    let x = ids[i];
    let mut j = from;
    'passes: for _ in 0..PASSES {
        if j == 0 {
            return Some(0);
        }
        let o = j - 1;
        if ids[o] == x {
            return Some(j);
        }
        j = usize::from(next[o]);
    }
    None
}

// Compares each identifier with those of its bucket that came before: the lowest page, if that settles it.
fn compare(ids: &[u32], pages: &[u16], head: &mut [u16], next: &mut [u16]) -> Option<u16>
    requires { Room ids.now head.old next.old × (length pages.now ≡ length ids.now) × Blank head.old }
    ensures { IfSome result (λ page. page ≡ lowest_repeat ids.now pages.now) }
{
    let mut best = 0;
    for i in 0..ids.len() {
        let before = chain(ids, head, next, i);
        let k = probe(ids, next, i, before)?;
        best = met(ids, pages, i, k, best);
    }
    Some(best)
}

// Chains all identifiers.
fn chains(ids: &[u32], head: &mut [u16], next: &mut [u16])
    requires { Room ids.now head.old next.old × Blank head.old }
    ensures { Heads (length ids.now) ids.now head.new
        × Chained (length ids.now) ids.now next.new }
{
    for i in 0..ids.len() {
        chain(ids, head, next, i);
    }
}

// Walks bucket g: the lowest page so far.
fn walk(
    ids: &[u32],
    pages: &[u16],
    head: &[u16],
    next: &[u16],
    seen: &mut [u16],
    g: usize,
    sofar: u16,
) -> u16
    requires { Room ids.now head.now next.now × (length pages.now ≡ length ids.now) × (length seen.old ≡ slots)
        × (g < buckets) × Heads (length ids.now) ids.now head.now × Chained (length ids.now) ids.now next.now
        × Stage ids.now pages.now g seen.old sofar }
    ensures { Stage ids.now pages.now (g + 1) seen.new result }
{
    let mut best = sofar;
    let mut j = usize::from(head[g]);
    while 0 < j {
        let i = j - 1;
        let h = slot(ids[i]);
        let k = usize::from(seen[h]);
        best = met(ids, pages, i, k, best);
        seen[h] = j as u16;
        j = usize::from(next[i]);
    }
    best
}

// Walks all buckets.
fn walks(ids: &[u32], pages: &[u16], head: &[u16], next: &[u16], seen: &mut [u16]) -> u16
    requires { Room ids.now head.now next.now × (length pages.now ≡ length ids.now) × (length seen.old ≡ slots)
        × Heads (length ids.now) ids.now head.now × Chained (length ids.now) ids.now next.now × Blank seen.old }
    ensures { result ≡ lowest_repeat ids.now pages.now }
{
    let mut best = 0;
    for g in 0..HEADS {
        best = walk(ids, pages, head, next, seen, g, best);
    }
    best
}

fn chain_and_walk(
    ids: &[u32],
    pages: &[u16],
    head: &mut [u16],
    next: &mut [u16],
    seen: &mut [u16],
) -> u16
    requires { Room ids.now head.old next.old × (length pages.now ≡ length ids.now) × (length seen.old ≡ slots)
        × Blank head.old × Blank seen.old }
    ensures { result ≡ lowest_repeat ids.now pages.now }
{
    chains(ids, head, next);
    walks(ids, pages, head, next, seen)
}

// The arrays for few identifiers: the lowest page, if comparing settles it.
pub fn lowest_of_few(ids: &[u32], pages: &[u16]) -> Option<u16>
    requires { (length ids.now ≤ 16384) × (length pages.now ≡ length ids.now) }
    ensures { IfSome result (λ page. page ≡ lowest_repeat ids.now pages.now) }
{
    let mut head = [0u16; HEADS];
    let mut next = [0u16; FEW_IDENTS];
    compare(ids, pages, &mut head, &mut next)
}

// The arrays for any identifiers.
pub fn lowest_of_many(ids: &[u32], pages: &[u16]) -> u16
    requires { (length ids.now ≤ max_idents) × (length pages.now ≡ length ids.now) }
    ensures { result ≡ lowest_repeat ids.now pages.now }
{
    let mut head = [0u16; HEADS];
    let mut next = [0u16; MAX_IDENTS];
    let mut seen = [0u16; SLOTS];
    chain_and_walk(ids, pages, &mut head, &mut next, &mut seen)
}

// The lowest page that holds a repeated identifier, among up to 65,535 identifiers with the page of each, in linear time whatever they are.
//
// Where all differ by their low 12 or 16 bits, they are distinct. Else they go by buckets.
#![tactic(auto)]

ghost use Rattle.std.specs.Prelude.{true, ◌≡◌, ◌≤◌, ◌<◌, length, take};
ghost use Rattle.lists.specs.Distinct.{Distinct};
ghost use Rattle.sound_chains.specs.Repeats.{lowest_repeat};
ghost use Rattle.sound_chains.specs.Chains.{max_idents};

use sound_buckets::{FEW_IDENTS, lowest_of_few, lowest_of_many};

// The values of the low 12 and of the low 16 bits.
const LOW_12: usize = 4096;

const LOW_16: usize = 65536;

// Do the identifiers differ by their low bits, the rests of division by PLACES? `seen` has a place for each rest, with 1 once it was met.
// `true` says that the identifiers are distinct. `false` says nothing: only time rests on it.
fn spread<const PLACES: usize>(ids: &[u32]) -> bool
    requires { (0 < PLACES) × (PLACES ≤ 65536) }
    ensures { result ≡ true → Distinct ids.now }
{
    let mut seen = [0u8; PLACES];
    for x in ids {
        let at = *x as usize % PLACES;
        if seen[at] == 1 {
            return false;
        }
        seen[at] = 1;
    }
    true
}

// Do they differ by their low 12 bits, or by 16 where they are more than 4,096?
fn all_spread(ids: &[u32]) -> bool
    ensures { result ≡ true → Distinct ids.now }
{
    if ids.len() <= LOW_12 {
        spread::<LOW_12>(ids)
    } else {
        spread::<LOW_16>(ids)
    }
}

// The lowest page that holds a repeated identifier, 0 where all are distinct.
pub fn lowest_repeat(ids: &[u32], pages: &[u16]) -> u16
    requires { (length ids.now ≤ max_idents) × (length pages.now ≡ length ids.now) }
    ensures { result ≡ lowest_repeat ids.now pages.now }
{
    if all_spread(ids) {
        return 0;
    }
    if ids.len() <= FEW_IDENTS {
        if let Some(page) = lowest_of_few(ids, pages) {
            return page;
        }
    }
    lowest_of_many(ids, pages)
}

// The same of the first n.
pub fn lowest_repeat_of(ids: &[u32], pages: &[u16], n: usize) -> u16
    requires { (n ≤ max_idents) × (n ≤ length ids.now) × (n ≤ length pages.now) }
    ensures { result ≡ lowest_repeat (take n ids.now) (take n pages.now) }
{
    lowest_repeat(&ids[..n], &pages[..n])
}

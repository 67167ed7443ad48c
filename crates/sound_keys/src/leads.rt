// The keys of the records of a leaf, by the greatest leads of their coordinates: column by column, all records of the leaf together.
ghost use Rattle.std.specs.Prelude.{◌≡◌, ◌+◌, ◌-◌, ◌*◌, ◌<◌, ◌≤◌, length, get_or};
ghost use Rattle.pagestore_page.specs.Layout.{leaf_of, no_record, max_items, page_size};
ghost use Rattle.tree_model.specs.Trees.{key_of};
ghost use Rattle.sound_keys.specs.Leads.{lead_of, lead_to, Leads};
ghost use Rattle.geometry.specs.Numbers.{max_features};

use geometry::points::{magnitude, pyramid_no};
use geometry::{Height, Key, MAX_FEATURES, Pyramid};
use pagestore::{read_coord, read_ident};

// A lead is a magnitude times PLACES, and how far the coordinate's place is below the last.
const PLACES: u16 = MAX_FEATURES as u16;

const LAST: u16 = PLACES - 1;

const LAST_FEATURE: usize = MAX_FEATURES - 1;

// The lead of coordinate m of record i: its magnitude, followed by how far m is below 15.
fn lead(page: &[u8], m: usize, i: usize) -> u16
    requires { (length page.now ≡ page_size) × (m < max_features) × (i < max_items) }
    ensures { result ≡ lead_of m (get_or (leaf_of page.now).records i no_record).coords }
{
    let h = magnitude(read_coord(page, m, i));
    h * PLACES + (LAST - m as u16)
}

// The greatest leads of the first n records, with K coordinates from m on.
fn lead_next<const K: usize>(page: &[u8], m: usize, n: usize, tops: &mut [u16])
    requires { (length page.now ≡ page_size) × (m + K ≤ max_features) × (n ≤ max_items) × Leads (leaf_of page.now) m n tops.old }
    ensures { Leads (leaf_of page.now) (m + K) n tops.new }
{
    for i in 0..n {
        let mut top = tops[i];
        for k in 0..K {
            top = top.max(lead(page, m + k, i));
        }
        tops[i] = top;
    }
}

// The greatest leads of the first n records with d features: in fours, as far as they go, then one by one.
pub fn lead_columns(page: &[u8], d: usize, n: usize, tops: &mut [u16])
    requires { (length page.now ≡ page_size) × (d ≤ max_features) × (n ≤ max_items) × Leads (leaf_of page.now) 0 n tops.old }
    ensures { Leads (leaf_of page.now) d n tops.new }
{
    let fours = d / 4;
    for q in 0..fours {
        lead_next::<4>(page, 4 * q, n, tops);
    }
    for m in 4 * fours..d {
        lead_next::<1>(page, m, n, tops);
    }
}

// The key of record i with d features, by its greatest lead.
pub fn lead_key(page: &[u8], top: u16, i: usize, d: usize) -> Key
    requires { (length page.now ≡ page_size) × (i < max_items) × (1 ≤ d) × (d ≤ max_features)
        × (top ≡ lead_to d (get_or (leaf_of page.now).records i no_record).coords) }
    ensures { result ≡ key_of d (get_or (leaf_of page.now).records i no_record) }
{
    let j = LAST_FEATURE - (top % PLACES) as usize;
    Key {
        pyramid: Pyramid(pyramid_no(j, d, read_coord(page, j, i))),
        height: Height(top / PLACES),
        id: read_ident(page, i),
    }
}

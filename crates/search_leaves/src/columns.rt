// The distances of a leaf's records together, coordinate by coordinate: a column of the page holds one coordinate of all its
// records, so that each loop goes over neighbours.
ghost use Rattle.std.specs.Prelude.{◌≡◌, ◌+◌, ◌*◌, ◌≤◌, ◌<◌, pos, nat_abs, ◌-ℤ◌, length, get_or};
ghost use Rattle.search_leaves.specs.Columns.{coords_at, gap_square, most_cost, most_weighted, Sums, WeightedSums, Quarters};
ghost use Rattle.geometry.specs.Numbers.{max_features, max_weight};
ghost use Rattle.pagestore_page.specs.Layout.{max_items, page_size};

use pagestore::read_coord;

// A power of two; two costs together are below it.
const PAIR_ROOM: u32 = 8388608;

// The gap of two stored coordinates, in 16 bits with its sign: so much a lane of the loops below holds.
fn gap_of(x: u16, y: u16) -> i16
    requires { (x < 2048) × (y < 2048) }
    ensures { result ≡ pos x -ℤ pos y }
{
    let a = x as i16;
    let b = y as i16;
    a - b
}

fn squared(gap: i16) -> u32
    requires { nat_abs gap ≤ 2047 }
    ensures { result ≡ nat_abs gap * nat_abs gap }
{
    let g = gap as i32;
    (g * g) as u32
}

// The square of the gap of two stored coordinates. That of the page, y, comes first: the loops subtract from what they loaded, with no copy.
fn square_gap(x: u16, y: u16) -> u32
    requires { (x < 2048) × (y < 2048) }
    ensures { (result ≡ gap_square x y) × (result ≤ most_cost) }
{
    squared(gap_of(y, x))
}

// What coordinate m of record r costs, where that of the asked point is x.
fn cost_at(page: &[u8], m: usize, r: usize, x: u16) -> u32
    requires { (length page.now ≡ page_size) × (m < max_features) × (r < max_items) × (x < 2048) }
    ensures { (result ≡ gap_square x (get_or (coords_at page.now r) m 0)) × (result ≤ most_cost) }
{
    square_gap(x, read_coord(page, m, r))
}

// The costs of two coordinates together. The remainder leaves the sum as it is, but makes the compiler add these two first: one instruction
// then squares both gaps and adds the squares.
fn pair_cost(a: u32, b: u32) -> u32
    requires { (a ≤ most_cost) × (b ≤ most_cost) }
    ensures { result ≡ a + b }
{
    (a + b) % PAIR_ROOM
}

// Adds what coordinate m costs to the sums of the first n records.
fn add_column(page: &[u8], q: &[u16], m: usize, n: usize, sums: &mut [u32])
    requires { Sums page.now q.now m n sums.old × (m < length q.now) }
    ensures { Sums page.now q.now (m + 1) n sums.new }
{
    let x = q[m];
    for r in 0..n {
        sums[r] += cost_at(page, m, r, x);
    }
}

// The same of four coordinates, `apart` from each other: so the first turns ask for every line of the page's memory.
fn add_four(page: &[u8], q: &[u16], m: usize, apart: usize, n: usize, sums: &mut [u32])
    requires { Quarters page.now q.now apart m n sums.old × (m < apart) }
    ensures { Quarters page.now q.now apart (m + 1) n sums.new }
{
    let second = m + apart;
    let third = second + apart;
    let fourth = third + apart;
    let x = q[m];
    let y = q[second];
    let z = q[third];
    let w = q[fourth];
    for r in 0..n {
        let a = cost_at(page, m, r, x);
        let b = cost_at(page, second, r, y);
        let c = cost_at(page, third, r, z);
        let e = cost_at(page, fourth, r, w);
        sums[r] += pair_cost(a, b) + pair_cost(c, e);
    }
}

// The four quarters of the coordinates side by side: how many are added then.
fn add_quarters(page: &[u8], q: &[u16], n: usize, sums: &mut [u32]) -> usize
    requires { Sums page.now q.now 0 n sums.old }
    ensures { Sums page.now q.now result n sums.new }
{
    let apart = q.len() / 4;
    for m in 0..apart {
        add_four(page, q, m, apart, n, sums);
    }
    4 * apart
}

// The coordinates that are left, one by one.
fn add_rest(page: &[u8], q: &[u16], from: usize, n: usize, sums: &mut [u32])
    requires { Sums page.now q.now from n sums.old }
    ensures { Sums page.now q.now (length q.now) n sums.new }
{
    for m in from..q.len() {
        add_column(page, q, m, n, sums);
    }
}

// The squared distances of the first n records of a leaf page from the asked point.
pub fn add_columns(page: &[u8], q: &[u16], n: usize, sums: &mut [u32])
    requires { Sums page.now q.now 0 n sums.old }
    ensures { Sums page.now q.now (length q.now) n sums.new }
{
    let m = add_quarters(page, q, n, sums);
    add_rest(page, q, m, n, sums);
}

// What a coordinate costs with its weight.
fn weighted_cost(cost: u32, weight: u16) -> u64
    requires { (cost ≤ most_cost) × (weight ≤ max_weight) }
    ensures { (result ≡ weight * cost) × (result ≤ most_weighted) }
{
    u64::from(weight) * u64::from(cost)
}

// Adds what coordinate m costs with its weight to the sums of the first n records.
// Kept: beside `add_column`. One loop for both was measured and made a question without weights 1 to 10 % slower (docs/DECISIONS.md, "Two ways through a leaf").
fn add_weighted(page: &[u8], q: &[u16], weights: &[u16], m: usize, n: usize, sums: &mut [u64])
    requires { WeightedSums page.now weights.now q.now m n sums.old × (m < length q.now) }
    ensures { WeightedSums page.now weights.now q.now (m + 1) n sums.new }
{
    let x = q[m];
    let weight = weights[m];
    for r in 0..n {
        sums[r] += weighted_cost(cost_at(page, m, r, x), weight);
    }
}

// The weighted distances of the first n records of a leaf page from the asked point.
pub fn add_weighted_columns(page: &[u8], q: &[u16], weights: &[u16], n: usize, sums: &mut [u64])
    requires { WeightedSums page.now weights.now q.now 0 n sums.old }
    ensures { WeightedSums page.now weights.now q.now (length q.now) n sums.new }
{
    for m in 0..q.len() {
        add_weighted(page, q, weights, m, n, sums);
    }
}

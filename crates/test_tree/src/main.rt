// The tree's examples of 01: d = 1, the identifiers 1 to 17 at 1 to 17, inserted upward.
#![tactic(auto)]

ghost use Rattle.std.specs.Prelude.{◌≤◌};

use geometry::MAX_FEATURES;
use pagestore::{PAGE_SIZE, Record};

// The record of identifier n at n; a slot holds 1,000 more than its coordinate.
fn record_of(n: u16) -> Record
    requires { n ≤ 17 }
{
    let mut coords = [0u16; MAX_FEATURES];
    coords[0] = 1000 + n;
    Record {
        id: u32::from(n),
        stage: 0,
        stamp: 0,
        coords,
    }
}

fn insert_up_to(index: &mut [u8], last: u16)
    requires { last ≤ 17 }
{
    for n in 1..=last {
        tree::insert(index, record_of(n));
    }
}

// How many records a leaf has, and its first and last identifier. A write that fails is passed over, here and below.
fn show_leaf(rt: &impl Print, index: &[u8], page: u32) {
    let leaf = pagestore::leaf_at(index, page);
    let n = leaf.count;
    if let Some(records) = leaf.records.get(..n)
        && let (Some(first), Some(last)) = (records.first(), records.last())
    {
        let _ = print!(rt; "{n} {} {} ", first.id, last.id);
    }
}

// The total, the root's page and level, and the number of leaves.
fn show_root(rt: &impl Print, index: &[u8]) {
    let total = pagestore::total_records(index);
    let root = pagestore::root_page(index);
    let level = pagestore::root_level(index);
    let _ = print!(rt; "{total} {root} {level} ");
    if level <= 4 {
        let leaves = tree::leaf_count(index, usize::from(level), root);
        let _ = print!(rt; "{leaves} ");
    }
}

// Pages wanted by the insertion of 17, and the pages lent, the lowest never used and the one freed last.
fn show_wanted(rt: &impl Print, index: &[u8]) {
    let wanted = tree::pages_wanted(index, record_of(17));
    let pages = pagestore::page_count(index);
    let fresh = pagestore::fresh_page(index);
    let freed = pagestore::freed_head(index);
    let _ = println!(rt; "{wanted} {pages} {fresh} {freed} ");
}

fn show_all(rt: &impl Print, index: &[u8]) {
    show_root(rt, index);
    show_leaf(rt, index, 1);
    show_leaf(rt, index, 2);
    let _ = println!(rt; "");
}

// The pages freed, the last freed first, and whether 15 and 16 are found.
fn show_freed(rt: &impl Print, index: &[u8]) {
    let freed = pagestore::freed_head(index);
    let link = pagestore::link_at(index, freed);
    let x = tree::find(index, 15).map_or(0, |x| x.id);
    let y = tree::find(index, 16).map_or(0, |x| x.id);
    let _ = println!(rt; "{freed} {link} {x} {y} ");
}

// In 3 pages the 17th insertion wants more pages than there are.
fn three_pages(rt: &impl Print) {
    let mut index = [0u8; 3 * PAGE_SIZE];
    pagestore::make(&mut index, 1);
    insert_up_to(&mut index, 16);
    show_wanted(rt, &index);
}

// In 4 it succeeds: leaves 1..9 and 10..17. Without 17: leaves 1..8 and 9..16. Without 16: one leaf, two pages freed.
fn four_pages(rt: &impl Print) {
    let mut index = [0u8; 4 * PAGE_SIZE];
    pagestore::make(&mut index, 1);
    insert_up_to(&mut index, 16);
    show_wanted(rt, &index);
    tree::insert(&mut index, record_of(17));
    show_all(rt, &index);
    tree::delete(&mut index, record_of(17));
    show_all(rt, &index);
    tree::delete(&mut index, record_of(16));
    show_all(rt, &index);
    show_freed(rt, &index);
}

fn main(rt: HostRuntime) {
    three_pages(&rt);
    four_pages(&rt);
}

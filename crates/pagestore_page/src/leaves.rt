// Leaf pages: records by columns, so that coordinate m of all records lies together (docs/LAYOUT.md).
ghost use Rattle.std.specs.Prelude.{◌≡◌, [], ◌<◌, ◌≤◌, length, get_or};
ghost use Rattle.pagestore_bytes.specs.Bytes.{le_at};
ghost use Rattle.pagestore_page.specs.Layout.{coord_room, coord_at, record_at, leaf_of, put_coords, put_label, put_record, leaf_bytes, no_record, records_in};

use crate::items::{filled, put_head};
use crate::{Leaf, MAX_ITEMS, Record};
use geometry::MAX_FEATURES;
use pagestore_bytes::{Number, clear};

// Where the stages begin, a byte each.
const STAGES: usize = 16;
// Where the columns begin.
const COLUMNS: usize = 32;
// The width of a column.
const WIDTH: usize = 32;
// Where the identifiers begin.
const IDENTS: usize = 576;
// Where the stamps begin.
const STAMPS: usize = 640;
// A stored coordinate is below this: the low 11 bits of two bytes.
const ROOM: u16 = 2048;

// Kept: no `Default`, here and in no_entry. A derived one promises slot by slot what `record_at [] 0` says whole, and one by
// hand would say no more than these functions.
pub fn no_record() -> Record
    ensures { result ≡ record_at [] 0 }
{
    Record {
        id: 0,
        stage: 0,
        stamp: 0,
        coords: [0u16; MAX_FEATURES],
    }
}

pub fn empty_leaf() -> Leaf
    ensures { result ≡ leaf_of [] }
{
    Leaf {
        count: 0,
        records: [no_record(); MAX_ITEMS],
    }
}

// The count of a leaf, as stored, read from its page.
pub fn read_count(page: &[u8]) -> usize
    requires { length page.now ≡ 1024 }
    ensures { result ≡ (leaf_of page.now).count }
{
    page[1] as usize
}

// The two bytes of a coordinate, apart from the mask: so compiled they are one load, and a loop over records has lanes.
fn coord_bytes(page: &[u8], m: usize, i: usize) -> u16
    requires { (length page.now ≡ 1024) × (m < 16) × (i < 16) }
    ensures { result ≡ le_at 2 page.now (coord_at m i) }
{
    u16::read(page, COLUMNS + WIDTH * m + 2 * i)
}

// Kept: a reader for each field of a record. Each has a column of its own, and its contract names its field.
// One coordinate of a record, as stored.
pub fn read_coord(page: &[u8], m: usize, i: usize) -> u16
    requires { (length page.now ≡ 1024) × (m < 16) × (i < 16) }
    ensures { (result ≡ get_or (get_or (leaf_of page.now).records i no_record).coords m 0) × (result < coord_room) }
{
    coord_bytes(page, m, i) % ROOM
}

// The identifier of a record.
pub fn read_ident(page: &[u8], i: usize) -> u32
    requires { (length page.now ≡ 1024) × (i < 16) }
    ensures { result ≡ (get_or (leaf_of page.now).records i no_record).id }
{
    u32::read(page, IDENTS + 4 * i)
}

// The stage of a record, as stored.
pub fn read_stage(page: &[u8], i: usize) -> u8
    requires { (length page.now ≡ 1024) × (i < 16) }
    ensures { result ≡ (get_or (leaf_of page.now).records i no_record).stage }
{
    u8::read(page, STAGES + i)
}

// The stamp of a record.
pub fn read_stamp(page: &[u8], i: usize) -> u32
    requires { (length page.now ≡ 1024) × (i < 16) }
    ensures { result ≡ (get_or (leaf_of page.now).records i no_record).stamp }
{
    u32::read(page, STAMPS + 4 * i)
}

// How many slots of a leaf are looked at together for so many records: as many as fill whole lanes, so that a loop over them has no rest.
pub fn lanes(count: usize) -> usize
    requires { count ≤ 16 }
    ensures { (count ≤ result) × (result ≤ 16) }
{
    if count <= MAX_ITEMS / 2 {
        MAX_ITEMS / 2
    } else {
        MAX_ITEMS
    }
}

// One record of a leaf, read from its page by itself.
pub fn read_record(page: &[u8], i: usize) -> Record
    requires { (length page.now ≡ 1024) × (i < 16) }
    ensures { result ≡ get_or (leaf_of page.now).records i no_record }
{
    let mut coords = [0u16; MAX_FEATURES];
    for m in 0..MAX_FEATURES {
        coords[m] = read_coord(page, m, i);
    }
    Record {
        id: read_ident(page, i),
        stage: read_stage(page, i),
        stamp: read_stamp(page, i),
        coords,
    }
}

// Reads a leaf from its page, handed over as a part of the index. All 16 slots are read, whatever the count.
pub fn read_leaf(page: &[u8]) -> Leaf
    requires { length page.now ≡ 1024 }
    ensures { result ≡ leaf_of page.now }
{
    let mut records = [no_record(); MAX_ITEMS];
    for i in 0..MAX_ITEMS {
        records[i] = read_record(page, i);
    }
    Leaf {
        count: read_count(page),
        records,
    }
}

fn put_coords(page: &mut [u8], i: usize, coords: [u16; MAX_FEATURES])
    requires { (length page.old ≡ 1024) × (i < 16) }
    ensures { page.new ≡ put_coords 16 page.old i coords }
{
    for (m, coord) in coords.iter().enumerate() {
        (*coord % ROOM).write(page, COLUMNS + WIDTH * m + 2 * i);
    }
}

// Everything of a record but its coordinates.
fn put_label(page: &mut [u8], i: usize, r: Record)
    requires { (length page.old ≡ 1024) × (i < 16) }
    ensures { page.new ≡ put_label page.old i r }
{
    r.id.write(page, IDENTS + 4 * i);
    page[STAGES + i] = r.stage;
    r.stamp.write(page, STAMPS + 4 * i);
}

fn put_record(page: &mut [u8], i: usize, r: Record)
    requires { (length page.old ≡ 1024) × (i < 16) }
    ensures { page.new ≡ put_record page.old i r }
{
    put_label(page, i, r);
    put_coords(page, i, r.coords);
}

// Writes a leaf into its page's own stretch, all 1,024 bytes.
pub fn write_leaf(page: &mut [u8], leaf: Leaf)
    requires { length page.old ≡ 1024 }
    ensures { page.new ≡ leaf_bytes (records_in leaf) }
{
    let n = filled(leaf.count);
    clear(page);
    put_head(page, 0, n);
    for i in 0..n {
        put_record(page, i, leaf.records[i]);
    }
}

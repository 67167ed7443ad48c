// The header, page 0: a getter and a setter for each field. In fewer than 1,024 bytes every field reads as 0, and a setter does nothing.
ghost use Rattle.std.specs.Prelude.{◌≡◌, ◌+◌, ◌≤◌};
ghost use Rattle.pagestore.specs.Store.{number_at, set_number, field_at, set_field, size, features, root, level, total, freed, fresh};

use pagestore_bytes::Number;
use pagestore_page::PAGE_SIZE;

// Where the fields stand. The length of the index in pages:
const SIZE: usize = 0;
// the number of features, d:
const FEATURES: usize = 4;
// the root's page:
const ROOT: usize = 8;
// the root's level:
const LEVEL: usize = 12;
// the number of records in all leaves:
const TOTAL: usize = 16;
// the page freed last:
const FREED: usize = 20;
// the lowest page never used:
const FRESH: usize = 24;

// The number at an offset of the header.
fn number_at<T: Number>(index: &[u8], at: usize) -> T
    requires { at + T.width ≤ 1024 }
    ensures { T.value result ≡ number_at T.width at index.now }
{
    if PAGE_SIZE <= index.len() {
        T::read(index, at)
    } else {
        T::zero()
    }
}

fn set_number<T: Number>(index: &mut [u8], at: usize, v: T)
    requires { at + T.width ≤ 1024 }
    ensures { index.new ≡ set_number T.width at index.old (T.value v) }
{
    if PAGE_SIZE <= index.len() {
        v.write(index, at);
    }
}

// Kept: a getter and a setter for each field, which the documents name. One for all would be told the field by a number, and `field_at` asks for it by
// name.

// The length of the index in pages.
pub fn index_size(index: &[u8]) -> u32
    ensures { result ≡ field_at size index.now }
{
    number_at(index, SIZE)
}

pub fn set_index_size(index: &mut [u8], v: u32)
    ensures { index.new ≡ set_field size index.old v }
{
    set_number(index, SIZE, v);
}

// The number of features, d.
pub fn features_of(index: &[u8]) -> u8
    ensures { result ≡ field_at features index.now }
{
    number_at(index, FEATURES)
}

pub fn set_features(index: &mut [u8], v: u8)
    ensures { index.new ≡ set_field features index.old v }
{
    set_number(index, FEATURES, v);
}

pub fn root_page(index: &[u8]) -> u32
    ensures { result ≡ field_at root index.now }
{
    number_at(index, ROOT)
}

pub fn set_root_page(index: &mut [u8], v: u32)
    ensures { index.new ≡ set_field root index.old v }
{
    set_number(index, ROOT, v);
}

pub fn root_level(index: &[u8]) -> u8
    ensures { result ≡ field_at level index.now }
{
    number_at(index, LEVEL)
}

pub fn set_root_level(index: &mut [u8], v: u8)
    ensures { index.new ≡ set_field level index.old v }
{
    set_number(index, LEVEL, v);
}

// The number of records in all leaves.
pub fn total_records(index: &[u8]) -> u32
    ensures { result ≡ field_at total index.now }
{
    number_at(index, TOTAL)
}

pub fn set_total_records(index: &mut [u8], v: u32)
    ensures { index.new ≡ set_field total index.old v }
{
    set_number(index, TOTAL, v);
}

// The page freed last, or 0.
pub fn freed_head(index: &[u8]) -> u32
    ensures { result ≡ field_at freed index.now }
{
    number_at(index, FREED)
}

pub fn set_freed_head(index: &mut [u8], v: u32)
    ensures { index.new ≡ set_field freed index.old v }
{
    set_number(index, FREED, v);
}

// The lowest page never used.
pub fn fresh_page(index: &[u8]) -> u32
    ensures { result ≡ field_at fresh index.now }
{
    number_at(index, FRESH)
}

pub fn set_fresh_page(index: &mut [u8], v: u32)
    ensures { index.new ≡ set_field fresh index.old v }
{
    set_number(index, FRESH, v);
}

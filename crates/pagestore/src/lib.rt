// The page store: an index is lent bytes in whole pages of 1,024, and page 0 is the header. docs/LAYOUT.md has the table of offsets.
// Every function is total: a page number out of range reads as an empty page, and a write there does nothing.
#![tactic(auto)]

mod counting;
mod header;
mod inners;
mod leaves;
mod links;
mod making;
mod pages;

// Of `pagestore_page`: the format's numbers, pages by value, and one page that is handed over as a part of the index.
pub use pagestore_page::{
    Entry, Inner, Leaf, MAX_ITEMS, MAX_PAGES, MAX_POINTS, MAX_STAGE, MIN_ITEMS, PAGE_SIZE, Record,
    filled, insert_record, lanes, read_coord, read_count, read_ident, read_stage, read_stamp,
};

// Pages by number.
pub use inners::set_inner;
pub use leaves::set_leaf;
pub use links::set_link;
pub use pages::{
    count_at, entry_at, ident_at, in_range, inner_at, leaf_at, level_at, link_at, page_count,
    record_at, stretch,
};

// The header's fields.
pub use header::{
    features_of, freed_head, fresh_page, index_size, root_level, root_page, set_features,
    set_freed_head, set_fresh_page, set_index_size, set_root_level, set_root_page,
    set_total_records, total_records,
};

// How many pages are free, and a new index.
pub use counting::{free_count, fresh_count};
pub use making::make;

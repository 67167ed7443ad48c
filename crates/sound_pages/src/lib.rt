// The followed pages, for the check: each by itself, then its entries; then the pages in no state.
#![tactic(auto)]

ghost use Rattle.std.specs.Prelude.{◌≡◌, ◌+◌, ◌*◌, ◌<◌, ◌≤◌, length};
ghost use Rattle.pagestore.specs.Store.{view_of, level_at};
ghost use Rattle.sound_faults.specs.Faults.{Reached, EntryFault};
ghost use Rattle.sound_faults.specs.Linked.{EntryFine};
ghost use Rattle.lists.specs.Judges.{Decides, Judges};
ghost use Rattle.sound_links.specs.Marks.{Clear, MarksAre, FreedMarks};
ghost use Rattle.sound_pages.specs.Pages.{PagesFine, HasEntry, EndsKept, Surveyed, Named};
ghost use Rattle.sound_pages.specs.Pages.{PageKept, EntriesJudged, ParentsJudged, StateJudged, StatesJudged};
ghost use Rattle.pagestore_page.specs.Layout.{max_items};

use pagestore::{Entry, entry_at, fresh_page, level_at, page_count, root_page};
use sound_faults::Fault;
use sound_keys::{Ends, item_count, judge_page, rank};

// Judges page p by itself, where it is followed, and keeps its first and last key.
pub fn keep_page(
    index: &[u8],
    p: u32,
    d: usize,
    marks: &[u16],
    ends: &mut [Ends],
) -> Result<(), Fault>
    requires { (p < (view_of index.now).count) × (d ≡ (view_of index.now).d) × MarksAre (view_of index.now) marks.now
        × PagesFine (view_of index.now) ends.old p }
    ensures { PageKept (view_of index.now) p ends.new result }
{
    let at = p as usize;
    if marks[at] == 0 {
        return Ok(());
    }
    let own = judge_page(index, p, d).ok_or(Fault { page: p })?;
    ends[at] = own;
    Ok(())
}

// Does an entry give the first and last key that are kept of its child?
fn gives_ends(e: Entry, kept: Ends) -> bool
    ensures { Decides (EndsKept e kept) result }
{
    if rank(e.first) != kept.first {
        return false;
    }
    rank(e.last) == kept.last
}

// All pages, each judged by itself: the marks of the followed and of the freed ones, and the first and last keys that are kept.
#[derive(Clone, Copy)]
pub struct Survey<'a> {
    pub index: &'a [u8],
    pub marks: &'a [u16],
    pub freed: &'a [u8],
    pub ends: &'a [Ends],
}

impl Survey<'_> {
    // Does an entry of page p have no fault, but for other entries that name its child? The child's mark tells its level, and that it is
    // rightly filled.
    fn judge_entry(&self, p: u32, e: Entry) -> bool
        requires known { Surveyed self.now }
        requires entry { HasEntry (view_of self.now.index.now) p e }
        ensures { Judges (EntryFine (view_of self.now.index.now) p e) (EntryFault (view_of self.now.index.now) p) result }
    {
        let c = e.child;
        if fresh_page(self.index) <= c {
            return false;
        }
        let at = c as usize;
        if self.marks[at] != u16::from(level_at(self.index, p)) {
            return false;
        }
        if c == root_page(self.index) {
            return false;
        }
        if self.freed[at] == 1 {
            return false;
        }
        gives_ends(e, self.ends[at])
    }

    // Do the entries of the inner page p have no fault? Marks the pages that they name.
    fn judge_entries(&self, p: u32, named: &mut [u8]) -> bool
        requires known { Surveyed self.now }
        requires page { Reached (view_of self.now.index.now) p × (¬ (level_at self.now.index.now p ≡ 0)) }
        requires named { Named (view_of self.now.index.now) named.old (max_items * p) }
        ensures { EntriesJudged (view_of self.now.index.now) p named.new result }
    {
        let n = item_count(self.index, p);
        for i in 0..n {
            let e = entry_at(self.index, p, i);
            if !self.judge_entry(p, e) {
                return false;
            }
            let at = e.child as usize;
            if named[at] == 1 {
                return false;
            }
            named[at] = 1;
        }
        true
    }

    // The same of page p, where it is a followed inner page.
    fn judge_parent(&self, p: u32, named: &mut [u8]) -> bool
        requires known { Surveyed self.now }
        requires page { p < (view_of self.now.index.now).count }
        requires named { Named (view_of self.now.index.now) named.old (max_items * p) }
        ensures { EntriesJudged (view_of self.now.index.now) p named.new result }
    {
        let at = p as usize;
        if self.marks[at] <= 1 {
            return true;
        }
        self.judge_entries(p, named)
    }

    // Judges the entries of all followed pages.
    pub fn judge_parents(&self, named: &mut [u8]) -> Result<(), Fault>
        requires known { Surveyed self.now }
        requires some { 1 ≤ (view_of self.now.index.now).count }
        requires clear { Clear (view_of self.now.index.now) named.old }
        ensures { ParentsJudged (view_of self.now.index.now) named.new result }
    {
        for p in 1..page_count(self.index) {
            if !self.judge_parent(p, named) {
                return Err(Fault { page: p });
            }
        }
        Ok(())
    }
}

fn in_state(at: usize, marks: &[u16], freed: &[u8]) -> bool
    requires { (at < length marks.now) × (at < length freed.now) }
    ensures { StateJudged marks.now freed.now at result }
{
    if marks[at] != 0 {
        return true;
    }
    freed[at] == 1
}

// Looks for a page in no state.
pub fn find_lost(index: &[u8], marks: &[u16], freed: &[u8]) -> Result<(), Fault>
    requires { MarksAre (view_of index.now) marks.now × FreedMarks (view_of index.now) freed.now
        × (1 ≤ (view_of index.now).fresh) × ((view_of index.now).fresh ≤ (view_of index.now).count) }
    ensures { StatesJudged (view_of index.now) result }
{
    for p in 1..fresh_page(index) {
        if !in_state(p as usize, marks, freed) {
            return Err(Fault { page: p });
        }
    }
    Ok(())
}

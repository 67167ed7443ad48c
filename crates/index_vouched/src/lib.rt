// Insert and delete without the check and without a look through all leaves for the identifier, for a caller that holds its index alone and
// keeps its identifiers with their points. On a sound index, where what the caller vouches for is true, each does what the act does
// (`vouched_same`), in the time of one way down the tree. An insert of an identifier that is live leaves an index that is not sound, with
// the identifier in it twice. A delete of a record that is not there is refused, so that a wrong word does no harm. On any bytes each ends
// without a fault, and what it returns and leaves is stated.
#![tactic(auto)]

ghost use Rattle.index_codes.specs.Codes.{code_of};
ghost use Rattle.index_refusals.specs.Refusals.{First};
ghost use Rattle.index_vouched.specs.Vouched.{vouched_insert, VouchedInserted, VouchedDeleted};

use index_codes::Refusal;
use index_refusals::{Epoch, record_of, refuse_epoch, refuse_pair, refuse_room};
use tree::holds;

// Whether an insert is refused.
fn refuse_vouched(index: &[u8], epoch: Epoch, point: &[i16]) -> Result<(), Refusal>
    ensures { First (vouched_insert index.now epoch point.now) (code_of result) }
{
    refuse_epoch(index, epoch, point)?;
    refuse_room(index, epoch, point)
}

// Inserts an epoch, whose identifier the caller vouches is not live, with its point.
pub fn insert(index: &mut [u8], epoch: Epoch, point: &[i16]) -> Result<(), Refusal>
    ensures { VouchedInserted index.old epoch point.now (code_of result) index.new }
{
    refuse_vouched(index, epoch, point)?;
    tree::insert(index, record_of(epoch, point));
    Ok(())
}

// Deletes the epoch of an identifier with its point, both told by the caller; stage and stamp are not looked at.
pub fn delete(index: &mut [u8], id: u32, point: &[i16]) -> Result<(), Refusal>
    ensures { VouchedDeleted index.old id point.now (code_of result) index.new }
{
    refuse_pair(index, id, point)?;
    let label = Epoch {
        id,
        stage: 0,
        stamp: 0,
    };
    let told = record_of(label, point);
    if !holds(index, told) {
        return Err(Refusal::NotLive);
    }
    tree::delete(index, told);
    Ok(())
}

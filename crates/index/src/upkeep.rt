// Insert and delete: the check, and then the act without it.
ghost use Rattle.index_codes.specs.Codes.{code_of};
ghost use Rattle.index.specs.Changes.{Inserted, Deleted};

use crate::checking::refuse_index;
use index_codes::Refusal;
use index_refusals::Epoch;

// Inserts an epoch with its point.
pub fn insert(index: &mut [u8], epoch: Epoch, point: &[i16]) -> Result<(), Refusal>
    ensures { Inserted index.old epoch point.now (code_of result) index.new }
{
    refuse_index(index)?; // nothing is inserted where soundness fails
    index_trusted::insert(index, epoch, point)
}

// Deletes the epoch of an identifier.
pub fn delete(index: &mut [u8], id: u32) -> Result<(), Refusal>
    ensures { Deleted index.old id (code_of result) index.new }
{
    refuse_index(index)?; // nor deleted
    index_trusted::delete(index, id)
}

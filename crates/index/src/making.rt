// Make: an empty index in lent bytes.
ghost use Rattle.index_codes.specs.Codes.{code_of};
ghost use Rattle.index.specs.Changes.{Made};

use index_codes::Refusal;
use index_refusals::refuse_make;

// Makes an empty index of some features: page 1 is an empty root leaf, and the rest is never used and keeps its bytes.
pub fn make(index: &mut [u8], features: u8) -> Result<(), Refusal>
    ensures { Made index.old features (code_of result) index.new }
{
    refuse_make(index.len(), features)?;
    pagestore::make(index, features);
    Ok(())
}

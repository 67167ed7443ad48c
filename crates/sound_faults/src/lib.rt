// Where soundness fails, and that an index is sound exactly if it fails at no page: definitions and laws.
#![tactic(auto)]

// What the check of an index that isn't sound finds: a page at which soundness fails.
#[derive(Clone, Copy, Debug, PartialEq, Eq)]
pub struct Fault {
    pub page: u32,
}

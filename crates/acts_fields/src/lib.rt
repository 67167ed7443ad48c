// Bytes and decimal fields of the acts text (01, "The acts program").
#![tactic(auto)]

pub mod bytes;
pub mod fields;

// Search by name and stacks for every kind of record, and the working tokens with the moves.
#![tactic(auto)]

pub mod guard;
pub mod meter;
pub mod records;
pub mod span;
pub mod store;
pub mod working;

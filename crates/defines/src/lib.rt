// The kept tokens and the definitions of a run.
#![tactic(auto)]

pub mod define;
pub mod redefine;
pub mod table;

// The listing of a token file: what passes, on which line, and how the run ended.
#![tactic(auto)]

pub mod list;
pub mod spelling;

// Where tokens come from: the caller's records, or the bytes of a token file.
#![tactic(auto)]

pub mod file;
mod last;
pub mod line;
pub mod records;
pub mod source;

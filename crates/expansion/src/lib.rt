// Macro expansion as a machine of moves, over any feed.
#![tactic(auto)]

pub mod delimiter;
pub mod expander;
pub mod invocation;
pub mod look;
pub mod moves;
pub mod phases;
pub mod processor;
pub mod run;
pub mod setup;
pub mod slots;
pub mod step;

// Directives over any source: definitions, conditions, blocks, `#line`, and the lines that pass.
#![tactic(auto)]

pub mod conditional;
pub mod define;
pub mod dispatch;
pub mod feed;
pub mod pass;
pub mod processor;

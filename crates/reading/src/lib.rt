// Reading directive lines from any source, and the blocks that they open and close.
#![tactic(auto)]

pub mod blocks;
pub mod convert;
pub mod definitions;
pub mod lines;
pub mod reader;
pub mod stack;

// A run: set-up, next, host definitions and the questions.
#![tactic(auto)]

pub mod questions;
pub mod run;
pub mod state;

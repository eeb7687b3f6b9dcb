// The expressions of `#if`, `#elif` and `#line`, worked out over a gathered line.
#![tactic(auto)]

pub mod evaluator;
pub mod if_lexer;
pub mod if_parser;
pub mod levels;
pub mod looks;
pub mod setup;

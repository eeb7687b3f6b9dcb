// What the lexer hands over, what the preprocessor answers, and the faults.
#![tactic(auto)]

pub mod fault;
pub mod float;
pub mod lexer;
pub mod location;
pub mod punct;
pub mod token;
pub mod words;

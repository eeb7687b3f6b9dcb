// A condition that is worked out: the parser, the feed that it reads and the meter that it spends.
use crate::if_parser::IfParser;
use stores::meter::Meter;

// `Ready` is asked by each method: a ghost field must be a proposition, and the invariant of macros is none.
#[derive(Drop)]
pub struct Evaluator<'a, F> {
    pub parser: &'a mut IfParser,
    pub lexer: &'a mut F,
    pub meter: &'a mut Meter,
}

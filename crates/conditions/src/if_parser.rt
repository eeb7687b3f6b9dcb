// The parser of conditions: a macro processor of its own, and the token that a look has found and nobody has taken.
use expansion::processor::MacroProcessor;
use tokens::location::Location;
use tokens::token::Token;

#[derive(Drop)]
pub struct IfParser {
    pub processor: MacroProcessor,
    pub carry: Option<Token>,
    // the directive's word
    pub location: Location,
    // whether a name that is no macro stands for 0: a flag, as pp-rs has it
    pub parsing_if: bool,
}

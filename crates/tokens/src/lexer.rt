// A token as the lexer hands it over.
use crate::location::Location;
use crate::punct::Punct;
use crate::token::{Float, Integer};

#[derive(Clone, Copy)]
pub enum LexerTokenValue {
    Ident(u32),
    Integer(Integer),
    Float(Float),
    Punct(Punct),
    Hash,
    NewLine,
}

#[derive(Clone, Copy)]
pub struct LexerToken {
    pub value: LexerTokenValue,
    pub location: Location,
    pub leading_whitespace: bool,
    pub start_of_line: bool,
    // a comment was seen before the end of this token
    pub had_comments: bool,
}

// What a lexer can find wrong.
#[derive(Clone, Copy, PartialEq, Eq)]
pub enum LexerError {
    IntegerOverflow,
    FloatParsingError,
    UnexpectedCharacter,
    NotSupported16BitLiteral,
    NotSupported64BitLiteral,
}

// How a list of tokens ends: the names say more than an Option of a pair would.
#[derive(Clone, Copy)]
pub enum Closing {
    End,
    Fault(LexerError, Location),
}

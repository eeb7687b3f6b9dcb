// Lexed tokens as tokens of the text.
ghost use Rattle.std.specs.Prelude.{◌≡◌};
ghost use Rattle.reading.specs.Converts.{unexpected, converted};

use tokens::fault::{Fault, Layer, PreprocessorError};
use tokens::lexer::{LexerToken, LexerTokenValue};
use tokens::token::{Token, TokenValue};

// What a lexed token stands for: line ends and hashes are no tokens of the text.
#[derive(Clone, Copy)]
pub enum Converted {
    Token(Token),
    Hash,
    NewLine,
}

impl From<LexerToken> for Converted {
    ghost from_gives = { λ token c. c ≡ converted token };

    fn from(token: LexerToken) -> Converted {
        let value = match token.value {
            LexerTokenValue::Integer(i) => TokenValue::Integer(i),
            LexerTokenValue::Float(f) => TokenValue::Float(f),
            LexerTokenValue::Ident(n) => TokenValue::Ident(n),
            LexerTokenValue::Punct(p) => TokenValue::Punct(p),
            LexerTokenValue::Hash => return Converted::Hash,
            LexerTokenValue::NewLine => return Converted::NewLine,
        };
        Converted::Token(Token {
            value,
            location: token.location,
        })
    }
}

pub fn make_unexpected_error(token: LexerToken) -> Fault
    ensures { result ≡ unexpected token }
{
    let error = match Converted::from(token) {
        Converted::Token(x) => PreprocessorError::UnexpectedToken(x.value),
        Converted::NewLine => PreprocessorError::UnexpectedNewLine,
        Converted::Hash => PreprocessorError::UnexpectedHash,
    };
    Fault::new(error, token.location, Layer::Directives)
}

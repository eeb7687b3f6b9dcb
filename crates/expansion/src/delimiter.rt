// The punctuation that parts the arguments of a call.
ghost use Rattle.std.specs.Prelude.{◌≡◌};
ghost use Rattle.expansion.specs.Delimiters.{delimits};

use tokens::punct::Punct;
use tokens::token::TokenValue;

#[derive(Clone, Copy, PartialEq, Eq)]
pub enum Delimiter {
    Open,
    Close,
    Comma,
    Other,
}

impl From<TokenValue> for Delimiter {
    ghost from_gives = { λ value delimiter. delimiter ≡ delimits value };

    fn from(value: TokenValue) -> Delimiter {
        match value {
            TokenValue::Punct(Punct::LeftParen) => Delimiter::Open,
            TokenValue::Punct(Punct::RightParen) => Delimiter::Close,
            TokenValue::Punct(Punct::Comma) => Delimiter::Comma,
            _ => Delimiter::Other,
        }
    }
}

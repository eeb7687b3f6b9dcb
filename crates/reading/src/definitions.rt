// The parameters and the body of a definition are read, and it is accepted.
ghost use Rattle.books.specs.Book.{Grown};
ghost use Rattle.defines.specs.Held.{held, ReadOn, Settled};

use crate::convert::make_unexpected_error;
use crate::lines::put;
use crate::reader::Reader;
use books::Book;
use defines::table::Defines;
use defines::table::pending::MAX_PARAMETERS;
use sources::source::Source;
use tokens::fault::{Fault, Layer, PreprocessorError, Step};
use tokens::lexer::{LexerToken, LexerTokenValue};
use tokens::location::Location;
use tokens::punct::Punct;
use tokens::token::{Token, TokenValue};

// The `(` of a function-like definition follows its name with no whitespace between.
fn opens_parameters(token: LexerToken) -> bool {
    matches!(token.value, LexerTokenValue::Punct(Punct::LeftParen)) && !token.leading_whitespace
}

// One more parameter: at most 32, and each is a kept token. Only parameters count towards the 32, whatever else was kept before them.
fn keep_parameter(defines: &mut Defines, name: u32, location: Location) -> Result<(), Fault>
    ensures { ReadOn defines.old defines.new }
{
    let error = if defines.pending_parameters() < MAX_PARAMETERS {
        PreprocessorError::KeptTokensFull
    } else {
        PreprocessorError::TooManyParameters
    };
    let kept = defines.keep_parameter(Token {
        value: TokenValue::Ident(name),
        location,
    });
    kept.map_err(|_| Fault::new(error, location, Layer::Directives))
}

impl<S: Source> Reader<S> {
    // The parameter list behind its `(`; the answer is the token that follows its `)`.
    fn parse_parameters(&mut self, defines: &mut Defines) -> Step<LexerToken>
        ensures { ReadOn defines.old defines.new }
    {
        let mut first_param = true;
        loop {
            let token = self.get_lexer_token()?;
            let (name, location) = match token.value {
                LexerTokenValue::Punct(Punct::RightParen) => return self.get_lexer_token(),
                LexerTokenValue::Ident(name) if first_param => (name, token.location),
                LexerTokenValue::Punct(Punct::Comma) if !first_param => {
                    let (name, location) = self.expect_lexer_ident(token.location)?;
                    if defines.is_pending_parameter(name) {
                        let error = PreprocessorError::DuplicateParameter;
                        return Err(Fault::new(error, location, Layer::Directives).into());
                    }
                    (name, location)
                }
                _ => return Err(make_unexpected_error(token).into()),
            };
            first_param = false;
            keep_parameter(defines, name, location)?;
        }
    }

    // The parameters and the body, up to the line end; whether the definition is function-like.
    pub fn read_define(&mut self, defines: &mut Defines) -> Step<bool>
        ensures { ReadOn defines.old defines.new }
    {
        let mut token = self.get_lexer_token()?;
        let function_like = opens_parameters(token);
        if function_like {
            token = self.parse_parameters(defines)?;
        }
        self.keep_until_newline(token, defines)?;
        Ok(function_like)
    }
}

// A name in force may be defined again only by the same definition. What was read and not accepted is given back.
pub fn accept_define(
    defines: &mut Defines,
    name: u32,
    function_like: bool,
    location: Location,
) -> Result<(), Fault>
    ensures handles { Grown (held defines.old) (held defines.new) }
    ensures settled { Settled defines.new }
{
    if let Some(handle) = defines.find(name) {
        let legal = defines.legal_redefinition(handle, function_like);
        defines.give_back();
        if legal {
            return Ok(());
        }
        return Err(Fault::new(
            PreprocessorError::DefineRedefined,
            location,
            Layer::Directives,
        ));
    }
    let accepted = defines.accept(name, function_like);
    accepted.map_err(|error| Fault::new(error, location, Layer::Directives))
}

// The tokens of a host's definition; line ends are skipped.
pub fn keep_tokens(defines: &mut Defines, tokens: &[LexerToken]) -> Result<(), Fault>
    ensures { ReadOn defines.old defines.new }
{
    for token in tokens {
        put(defines, *token)?;
    }
    Ok(())
}

// Line ends.
ghost use Rattle.std.specs.Prelude.{◌≡◌};
ghost use Rattle.sources.specs.Source.{is_newline};

use tokens::lexer::LexerTokenValue;

pub fn is_new_line(value: LexerTokenValue) -> bool
    ensures { result ≡ is_newline value }
{
    matches!(value, LexerTokenValue::NewLine)
}

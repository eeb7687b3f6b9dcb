// What the last delivered token, if there was one, says of the next.
ghost use Rattle.std.specs.Prelude.{◌≡◌};
ghost use Rattle.sources.specs.Mending.{seen_behind, fresh_behind};

use crate::line::is_new_line;
use tokens::lexer::LexerToken;

// The comments mark so far.
pub(crate) fn seen_after(last: Option<LexerToken>) -> bool
    ensures { result ≡ seen_behind last }
{
    last.is_some_and(|token| token.had_comments)
}

// Whether the next token may be marked line start.
pub(crate) fn fresh_after(last: Option<LexerToken>) -> bool
    ensures { result ≡ fresh_behind last }
{
    last.is_none_or(|token| is_new_line(token.value))
}

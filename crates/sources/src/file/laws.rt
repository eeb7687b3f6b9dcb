// Whether a file's tokens keep the laws of a source.
ghost use Rattle.std.specs.Prelude.{◌≡◌, true, false};
ghost use Rattle.sources.specs.Source.{lawful};
ghost use Rattle.sources.specs.Filed.{begun, follows};

use crate::line::is_new_line;
use tokens::lexer::LexerToken;

// Whether the token's marks are lawful where `seen` is the comments mark so far and `fresh` whether a line starts here.
fn may_follow(token: LexerToken, seen: bool, fresh: bool) -> bool
    ensures { result ≡ follows seen fresh token }
{
    (fresh || !token.start_of_line) && (token.had_comments || !seen)
}

pub(crate) fn keep_laws(tokens: &[LexerToken]) -> bool
    ensures { result ≡ lawful (begun tokens.now) }
{
    let mut seen = false;
    let mut fresh = true;
    for token in tokens {
        if !may_follow(*token, seen, fresh) {
            return false;
        }
        seen = token.had_comments;
        fresh = is_new_line(token.value);
    }
    fresh
}

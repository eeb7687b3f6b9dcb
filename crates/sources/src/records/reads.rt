// Reading the caller's records.
ghost use Rattle.std.specs.Prelude.{◌≡◌, true, false, None};
ghost use Rattle.sources.specs.Mending.{mend, missing, mended};
ghost use Rattle.sources.specs.Recorded.{meant, meant_lawful};

use super::Records;
use crate::last::{fresh_after, seen_after};
use crate::line::is_new_line;
use crate::source::Source;
use tokens::lexer::{Closing, LexerToken, LexerTokenValue};
use tokens::location::Location;

// The token as it is delivered after `last`.
fn mend_token(last: Option<LexerToken>, token: LexerToken) -> LexerToken
    ensures { result ≡ mend last token }
{
    LexerToken {
        start_of_line: token.start_of_line && fresh_after(last),
        had_comments: token.had_comments || seen_after(last),
        ..token
    }
}

// The line end that is missing before End.
fn missing_line_end(last: Option<LexerToken>, closing: Closing) -> Option<LexerToken>
    ensures { result ≡ missing last closing }
{
    let Closing::End = closing else {
        return None;
    };
    let token = last?;
    if is_new_line(token.value) {
        return None;
    }
    Some(LexerToken {
        value: LexerTokenValue::NewLine,
        location: Location {
            start: token.location.end,
            ..token.location
        },
        leading_whitespace: false,
        start_of_line: false,
        ..token
    })
}

impl<'a> Records<'a> {
    pub fn new(items: &'a [LexerToken], closing: Closing) -> Records<'a>
        ensures { meant result ≡ record { rest = mended None closing items.now; closing = closing; seen = false; fresh = true } }
    {
        Records {
            rest: items,
            closing,
            last: None,
        }
    }
}

impl<'a> Source for Records<'a> {
    ghost means = { meant };

    ghost lawful = { meant_lawful };

    fn next(&mut self) -> Result<LexerToken, Closing> {
        let token = match self.rest.split_first() {
            Some((first, rest)) => {
                self.rest = rest;
                mend_token(self.last, *first)
            }
            None => missing_line_end(self.last, self.closing).ok_or(self.closing)?,
        };
        self.last = Some(token);
        Ok(token)
    }

    fn had_comments(&self) -> bool {
        seen_after(self.last)
    }
}

// Questions to a run; they change nothing.
ghost use Rattle.std.specs.Prelude.{◌≡◌, ◌+◌, length};
ghost use Rattle.std.specs.List.{slice_get};
ghost use Rattle.books.specs.Book.{live};
ghost use Rattle.expansion.specs.Sane.{Lawful};
ghost use Rattle.preprocessor.specs.Runs.{spent_of, book_of, in_expansion};
ghost use Rattle.preprocessor.specs.Parts.{part_in, directive_tokens};

use crate::state::Preprocessor;
use sources::source::Source;
use tokens::token::{Part, Token, TokenValue};

// The kept tokens of a passed directive; other tokens have none.
fn part_of(value: TokenValue) -> Part
    ensures { result ≡ part_in value }
{
    match value {
        TokenValue::Version(v) => v.tokens,
        TokenValue::Extension(e) => e.tokens,
        TokenValue::Pragma(p) => p.tokens,
        _ => Part::default(),
    }
}

impl<S: Source> Preprocessor<S> {
    // Moves made.
    pub fn moves(&self) -> u64
        ensures { result ≡ (spent_of self.now).moves }
    {
        self.meter.moves
    }

    pub fn kept_tokens(&self) -> usize
        ensures { result ≡ length self.now.directives.defines.kept.items }
    {
        self.directives.defines.kept()
    }

    pub fn working_tokens(&self) -> usize
        ensures { result ≡ length (spent_of self.now).working + length (spent_of self.now).building }
    {
        self.meter.stored()
    }

    pub fn definitions_in_force(&self) -> usize
        ensures { result ≡ live (book_of self.now).table }
    {
        self.directives.defines.in_force()
    }

    pub fn blocks_open(&self) -> usize
        ensures { result ≡ length self.now.directives.blocks.stack.items }
    {
        self.directives.blocks.count()
    }

    // How many names are in expansion. No name is there twice, each handle bears its macro's name, and they
    // number at most the definitions in force plus one.
    pub fn names_in_expansion(&self) -> usize
        ensures count { result ≡ length (in_expansion self.now) }
        ensures law { Lawful (book_of self.now) (in_expansion self.now) }
    {
        self.processor.invocations.len()
    }

    // One token of a passed directive, if it is there.
    pub fn directive_token(&self, directive: TokenValue, i: usize) -> Option<Token>
        ensures { result ≡ slice_get (directive_tokens self.now.directives.defines.kept.items directive) i }
    {
        self.directives.defines.part_token(part_of(directive), i)
    }
}

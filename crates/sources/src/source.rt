// What every source of tokens promises.
ghost use Rattle.std.specs.Prelude.{◌≡◌, true};
ghost use Rattle.sources.specs.Source.{Tokens, lawful, read, after};

use tokens::lexer::{Closing, LexerToken};

// A source means the finite list of tokens still to come, and what closes it.
pub trait Source {
    ghost means: { Self → Tokens };

    ghost lawful: { (s : Self) → lawful (means s) ≡ true };

    // Takes the first token, or answers the closing each time where none is left.
    fn next(&mut self) -> Result<LexerToken, Closing>
        ensures value { result ≡ read (means self.old) }
        ensures after { means self.new ≡ after (means self.old) };

    // Whether the last delivered token is marked as having comments before it.
    fn had_comments(&self) -> bool
        ensures value { result ≡ (means self.now).seen };
}

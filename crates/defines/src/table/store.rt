// The kept tokens as a store that takes a line.
ghost use Rattle.defines.specs.Held.{ReadOn};
ghost use Rattle.defines.specs.ReadingOn.{read_none, read_then};

use super::Defines;
use stores::store::TokenStore;
use tokens::fault::PreprocessorError;
use tokens::token::Token;

impl TokenStore for Defines {
    ghost tokens = { λ s. s.kept.items };

    ghost Grew = { ReadOn };

    ghost same = { read_none };

    ghost then = { read_then };

    fn put(&mut self, x: Token) -> Result<(), PreprocessorError> {
        self.keep(x)
    }
}

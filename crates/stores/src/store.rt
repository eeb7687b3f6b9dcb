// Stores that take the tokens of a line one by one.
ghost use Rattle.std.specs.Prelude.{◌≡◌, List, [], ◌∷◌, ◌++◌, is_ok, if◌then◌else◌};
ghost use Rattle.tokens.specs.declared.token.Token.{Token};
ghost use Rattle.stores.specs.Tank.{tank, Grows};
ghost use Rattle.stores.specs.Growing.{grows_same, grows_on};

use crate::meter::Meter;
use tokens::fault::PreprocessorError;
use tokens::token::Token;

pub trait TokenStore {
    // The tokens that are there.
    ghost tokens: { Self → List Token };

    // What taking tokens makes of a store.
    ghost Grew: { Self → Self → Type 0 };

    // One token more at the end, unless the store is full.
    fn put(&mut self, x: Token) -> Result<(), PreprocessorError>
        ensures tokens { tokens self.new ≡ (if is_ok result then tokens self.old ++ x ∷ [] else tokens self.old) }
        ensures grew { Grew self.old self.new };

    ghost same: { (s : Self) → Grew s s };

    ghost then: { (s t u : Self) → Grew s t → Grew t u → Grew s u };
}

impl TokenStore for Meter {
    ghost tokens = { λ m. m.working.items };

    ghost Grew = { λ m n. Grows (tank m) (tank n) };

    ghost same = { λ m. grows_same (tank m) };

    ghost then = { λ l m n. grows_on (tank l) (tank m) (tank n) };

    fn put(&mut self, x: Token) -> Result<(), PreprocessorError> {
        self.store(x)
    }
}

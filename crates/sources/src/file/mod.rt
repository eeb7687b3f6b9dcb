// The source over a token file.
ghost use Rattle.std.specs.Prelude.{◌≡◌, true};
ghost use Rattle.std.specs.Vec.Iter.{into_iter_items};
ghost use Rattle.sources.specs.Source.{lawful};
ghost use Rattle.sources.specs.Filed.{to_come};

use std::alloc::Global;
use std::vec::IntoIter;
use tokens::lexer::LexerToken;

mod entering;
mod fields;
mod laws;
mod parts;
mod raw;
pub mod read;

// The tokens are kept with their names as places in the file, which become numbers of the table as they are delivered.
#[derive(Drop)]
pub struct TokenFile {
    // those that are not yet delivered
    tokens: IntoIter<LexerToken, Global>,
    // the table's numbers of the file's names
    numbers: Vec<u32>,
    // the last token, as it was delivered
    last: Option<LexerToken>,
    ghost kept: { lawful (to_come (into_iter_items tokens) numbers.items last) ≡ true },
}

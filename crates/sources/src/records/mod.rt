// The source over the caller's records.
use tokens::lexer::{Closing, LexerToken};

pub mod reads;

// Never refuses: what breaks the laws of a source is mended as it is delivered.
#[derive(Drop)]
pub struct Records<'a> {
    // the items that are not yet delivered
    rest: &'a [LexerToken],
    closing: Closing,
    // the last token, as it was delivered
    last: Option<LexerToken>,
}

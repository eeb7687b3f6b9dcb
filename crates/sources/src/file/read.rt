// Reading a token file, and delivering its tokens.
ghost use Rattle.std.specs.Prelude.{◌≡◌, is_ok, if◌then◌else◌, slice_index};
ghost use Rattle.sources.specs.Contents.{file_names};
ghost use Rattle.sources.specs.Entering.{table_after};
ghost use Rattle.sources.specs.Filed.{renamed, filed};
ghost use Rattle.sources.specs.FileSource.{filing, Filing};

use super::TokenFile;
use super::entering::enter_names;
use super::fields::decode;
use super::laws::keep_laws;
use super::parts::{lengths_fit, parts_of};
use crate::last::seen_after;
use crate::source::Source;
use names::table::Names;
use std::alloc::Global;
use tokens::fault::Refusal;
use tokens::lexer::{Closing, LexerToken, LexerTokenValue};

const FILE_BYTES: usize = 65536;

impl TokenFile {
    // The source over the file's bytes. Its names are entered into the table, which a refusal leaves as it was.
    pub fn read(heap: Global, bytes: &[u8], table: &mut Names) -> Result<TokenFile, Refusal>
        ensures value { Filing result (filed table.old bytes.now) }
        ensures entered { table.new ≡ (if is_ok result then table_after table.old (file_names bytes.now) else table.old) }
    {
        if bytes.len() > FILE_BYTES {
            return Err(Refusal::BadFile);
        }
        let parts = parts_of(bytes).ok_or(Refusal::BadFile)?;
        let tokens = decode(heap, parts.records, parts.names)?;
        if !keep_laws(&tokens) {
            return Err(Refusal::BadFile);
        }
        if !lengths_fit(parts.lengths) {
            return Err(Refusal::NameLength);
        }
        let numbers = enter_names(heap, table, parts.lengths, parts.text)?;
        Ok(TokenFile {
            tokens: tokens.into_iter(),
            numbers,
            last: None,
        })
    }
}

fn number_at(numbers: &[u32], place: u32) -> u32
    ensures { result ≡ slice_index numbers.now place }
{
    numbers.get(place as usize).copied().unwrap_or(0)
}

// The token with the table's number of its name.
fn rename(token: LexerToken, numbers: &[u32]) -> LexerToken
    ensures { result ≡ renamed numbers.now token }
{
    let value = match token.value {
        LexerTokenValue::Ident(place) => LexerTokenValue::Ident(number_at(numbers, place)),
        value => value,
    };
    LexerToken { value, ..token }
}

impl Source for TokenFile {
    ghost means = { filing };

    ghost lawful = { λ f. f.kept };

    fn next(&mut self) -> Result<LexerToken, Closing> {
        let next = self.tokens.next().ok_or(Closing::End)?;
        let token = rename(next, &self.numbers);
        self.last = Some(token);
        Ok(token)
    }

    fn had_comments(&self) -> bool {
        seen_after(self.last)
    }
}

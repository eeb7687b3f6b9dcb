// Single tokens and whole lines of a source.
ghost use Rattle.std.specs.Prelude.{◌≡◌, ◌<◌, ◌≤◌, length, OnOk};
ghost use Rattle.sources.specs.Source.{read, after};
ghost use Rattle.stores.specs.Tank.{tank, Grows};
ghost use Rattle.defines.specs.Held.{ReadOn};
ghost use Rattle.reading.specs.Reads.{told};

use crate::convert::{Converted, make_unexpected_error};
use crate::reader::Reader;
use defines::table::Defines;
use sources::line::is_new_line;
use sources::source::Source;
use stores::meter::Meter;
use stores::span::Span;
use stores::store::TokenStore;
use tokens::fault::{Fault, Layer, PreprocessorError, Step, StepExit};
use tokens::lexer::{LexerToken, LexerTokenValue};
use tokens::location::Location;

// A token of a line goes into a store; a line end does not.
pub(crate) fn put<T: TokenStore>(store: &mut T, token: LexerToken) -> Result<(), Fault>
    ensures { T.Grew store.old store.new }
{
    match Converted::from(token) {
        Converted::Token(x) => {
            let put = store.put(x);
            put.map_err(|error| Fault::new(error, x.location, Layer::Directives))
        }
        Converted::NewLine => Ok(()),
        Converted::Hash => Err(make_unexpected_error(token)),
    }
}

impl<S: Source> Reader<S> {
    pub fn new(source: S) -> Reader<S>
        ensures { S.means result.source ≡ S.means source }
    {
        Reader {
            source,
            last: Location::default(),
        }
    }

    pub fn get_lexer_token(&mut self) -> Step<LexerToken>
        ensures value { result ≡ told (read (S.means self.old.source)) }
        ensures after { S.means self.new.source ≡ after (S.means self.old.source) }
        ensures falls { OnOk result (length (S.means self.new.source).rest < length (S.means self.old.source).rest) }
        ensures never { length (S.means self.new.source).rest ≤ length (S.means self.old.source).rest }
    {
        let token = self.source.next()?;
        self.last = token.location;
        Ok(token)
    }

    pub fn expect_a_lexer_token(&mut self, current_location: Location) -> Step<LexerToken>
        ensures { length (S.means self.new.source).rest ≤ length (S.means self.old.source).rest }
    {
        match self.get_lexer_token() {
            Err(StepExit::Finished) => Err(Fault::new(
                PreprocessorError::UnexpectedEndOfInput,
                current_location,
                Layer::Directives,
            )
            .into()),
            step => step,
        }
    }

    pub fn expect_newline(&mut self, current_location: Location) -> Step<()> {
        let token = self.expect_a_lexer_token(current_location)?;
        if is_new_line(token.value) {
            Ok(())
        } else {
            Err(make_unexpected_error(token).into())
        }
    }

    pub fn expect_lexer_ident(&mut self, current_location: Location) -> Step<(u32, Location)>
        ensures { length (S.means self.new.source).rest ≤ length (S.means self.old.source).rest }
    {
        let token = self.expect_a_lexer_token(current_location)?;
        let LexerTokenValue::Ident(name) = token.value else {
            return Err(make_unexpected_error(token).into());
        };
        Ok((name, token.location))
    }

    pub fn consume_until_newline(&mut self) -> Step<()> {
        while !is_new_line(self.get_lexer_token()?.value) {}
        Ok(())
    }

    // This token and the rest of the line go into a store.
    fn put_until_newline<T: TokenStore>(&mut self, first: LexerToken, store: &mut T) -> Step<()>
        ensures { T.Grew store.old store.new }
    {
        let mut token = first;
        while !is_new_line(token.value) {
            put(store, token)?;
            token = self.get_lexer_token()?;
        }
        Ok(())
    }

    // The rest of the line, as a part of the working store.
    pub fn gather_until_newline(&mut self, meter: &mut Meter) -> Step<Span>
        ensures { Grows (tank meter.old) (tank meter.new) }
    {
        let from = meter.working.len();
        let first = self.get_lexer_token()?;
        self.put_until_newline(first, meter)?;
        Ok(Span {
            from,
            to: meter.working.len(),
        })
    }

    // This token and the rest of the line are kept.
    pub fn keep_until_newline(&mut self, first: LexerToken, defines: &mut Defines) -> Step<()>
        ensures { ReadOn defines.old defines.new }
    {
        self.put_until_newline(first, defines)
    }
}

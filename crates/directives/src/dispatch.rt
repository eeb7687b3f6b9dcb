// One directive line: the word decides, and whether the text is live.
ghost use Rattle.stores.specs.Tank.{tank, Spends};
ghost use Rattle.books.specs.Book.{Grown};
ghost use Rattle.defines.specs.Held.{held};

use crate::processor::DirectiveProcessor;
use reading::convert::make_unexpected_error;
use sources::source::Source;
use stores::meter::Meter;
use tokens::fault::{Fault, Layer, PreprocessorError, Step, StepExit};
use tokens::lexer::LexerTokenValue;
use tokens::location::Location;
use tokens::token::Token;
use tokens::words::{
    DEFINE, ELIF, ELSE, ENDIF, ERROR, EXTENSION, IF, IFDEF, IFNDEF, LINE, PRAGMA, UNDEF, VERSION,
};

// A fault within `#if`, `#elif` and `#line` carries the word's place too. The word goes by its number, as names do: a form of the project.
fn within(step: Step<Token>, word: u32, location: Location) -> Step<Token> {
    match (step, word) {
        (Err(StepExit::Error(f)), IF | ELIF | LINE) => Err(StepExit::Error(Fault {
            directive: Some(location),
            ..f
        })),
        _ => step,
    }
}

impl<S: Source> DirectiveProcessor<S> {
    // The words by number, as a fresh name table holds them. A directive that passes answers a token, every other goes on.
    fn parse_word(&mut self, word: u32, location: Location, meter: &mut Meter) -> Step<Token>
        ensures handles { Grown (held self.old.defines) (held self.new.defines) }
        ensures stores { Spends (tank meter.old) (tank meter.new) }
    {
        let live = !self.blocks.skipping;
        match word {
            ERROR..=UNDEF | VERSION..=PRAGMA if !live => self.reader.consume_until_newline()?,
            ERROR => {
                let error = PreprocessorError::ErrorDirective;
                return Err(Fault::new(error, location, Layer::Directives).into());
            }
            LINE => self.parse_line_directive(location, meter)?,
            DEFINE => self.parse_define_directive(location)?,
            UNDEF => self.parse_undef_directive(location)?,
            IF => self.parse_if_directive(location, meter)?,
            IFDEF => self.parse_ifdef_directive(location, meter)?,
            IFNDEF => self.parse_ifndef_directive(location, meter)?,
            ELIF => self.parse_elif_directive(location, meter)?,
            ELSE => self.parse_else_directive(location)?,
            ENDIF => self.parse_endif_directive(location)?,
            VERSION => return self.parse_version_directive(location),
            EXTENSION => return self.parse_extension_directive(location),
            PRAGMA => return self.parse_pragma_directive(location),
            _ if live => {
                let error = PreprocessorError::UnknownDirective;
                return Err(Fault::new(error, location, Layer::Directives).into());
            }
            _ => {}
        }
        Err(StepExit::Continue)
    }

    pub fn parse_directive(&mut self, hash_location: Location, meter: &mut Meter) -> Step<Token>
        ensures handles { Grown (held self.old.defines) (held self.new.defines) }
        ensures stores { Spends (tank meter.old) (tank meter.new) }
    {
        let token = self.reader.expect_a_lexer_token(hash_location)?;
        match token.value {
            LexerTokenValue::Ident(word) => {
                let step = self.parse_word(word, token.location, meter);
                self.had_directive = true;
                within(step, word, token.location)
            }
            _ if self.blocks.skipping => Err(StepExit::Continue),
            _ => Err(make_unexpected_error(token).into()),
        }
    }
}

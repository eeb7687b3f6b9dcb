// The directive processor as the feed of the text.
ghost use Rattle.std.specs.Prelude.{◌≡◌, false, [], pos, IfOk};
ghost use Rattle.stores.specs.Tank.{tank, Spends};
ghost use Rattle.books.specs.Book.{Grown};
ghost use Rattle.defines.specs.Held.{held};
ghost use Rattle.defines.specs.Sounds.{held_sound};
ghost use Rattle.defines.specs.Changes.{empty};

use crate::processor::DirectiveProcessor;
use books::{Book, Feed, Handle};
use conditions::if_parser::IfParser;
use defines::table::Defines;
use reading::blocks::Blocks;
use reading::convert::{Converted, make_unexpected_error};
use reading::reader::Reader;
use sources::source::Source;
use std::alloc::{AllocError, Global};
use stores::meter::Meter;
use tokens::fault::{Fault, Layer, PreprocessorError, Step, StepExit};
use tokens::location::Location;
use tokens::token::Token;

impl<S: Source + Drop> DirectiveProcessor<S> {
    // Nothing is read, defined or open yet.
    pub fn new(heap: Global, source: S) -> Result<DirectiveProcessor<S>, AllocError>
        ensures { IfOk result (λ p. (S.means p.reader.source ≡ S.means source) × (held p.defines ≡ empty) × (p.blocks.stack.items ≡ []) × (p.blocks.skipping ≡ false) × (p.line_offset ≡ pos 0) × (p.had_directive ≡ false) × (p.had_non_directive_token ≡ false)) }
    {
        let defines = Defines::new(heap)?;
        let blocks = Blocks::new(heap)?;
        let parser = IfParser::new(heap)?;
        Ok(DirectiveProcessor {
            reader: Reader::new(source),
            defines,
            blocks,
            parser,
            line_offset: 0,
            had_directive: false,
            had_non_directive_token: false,
        })
    }
}

impl<S: Source> DirectiveProcessor<S> {
    // A line end, a directive line, or a token that is text where the text is live.
    fn step_text(&mut self, meter: &mut Meter) -> Step<Token>
        ensures handles { Grown (held self.old.defines) (held self.new.defines) }
        ensures stores { Spends (tank meter.old) (tank meter.new) }
    {
        let token = self.reader.get_lexer_token()?;
        match Converted::from(token) {
            Converted::NewLine => Err(StepExit::Continue),
            Converted::Hash if token.start_of_line => self.parse_directive(token.location, meter),
            _ if self.blocks.skipping => Err(StepExit::Continue),
            Converted::Hash => Err(make_unexpected_error(token).into()),
            Converted::Token(x) => {
                self.had_non_directive_token = true;
                Ok(x)
            }
        }
    }
}

// A feed is a book (a form of the project), so it hands the questions on.
impl<S: Source> Book for DirectiveProcessor<S> {
    ghost defs = { λ p. held p.defines };

    ghost sound = { λ p. held_sound p.defines };

    fn find(&self, name: u32) -> Option<Handle> {
        self.defines.find(name)
    }

    fn is_function(&self, handle: Handle) -> bool {
        self.defines.is_function(handle)
    }

    fn arity(&self, handle: Handle) -> usize {
        self.defines.arity(handle)
    }

    fn parameter(&self, handle: Handle, name: u32) -> Option<usize> {
        self.defines.parameter(handle, name)
    }

    fn token(&self, handle: Handle, at: usize) -> Option<Token> {
        self.defines.token(handle, at)
    }
}

impl<S: Source> Feed for DirectiveProcessor<S> {
    // The source may not end with a block open. A match, as its arms do different things.
    fn step(&mut self, meter: &mut Meter) -> Step<Token> {
        match self.step_text(meter) {
            Err(StepExit::Finished) => match self.blocks.close() {
                Some(block) => Err(Fault::new(
                    PreprocessorError::UnfinishedBlock,
                    block.start_location,
                    Layer::Directives,
                )
                .into()),
                None => Err(StepExit::Finished),
            },
            step => step,
        }
    }

    fn place(&self) -> Location {
        self.reader.last
    }

    fn apply_line_offset(&self, line: u32, location: Location) -> Result<u32, Fault> {
        let overflow = Fault::new(PreprocessorError::LineOverflow, location, Layer::Directives);
        let shifted = i64::from(line)
            .checked_add(self.line_offset)
            .ok_or(overflow)?;
        u32::try_from(shifted).map_err(|_| overflow)
    }
}

// A gathered line as a feed, with the definitions of a book.
ghost use Rattle.std.specs.Prelude.{◌≡◌};
ghost use Rattle.stores.specs.Tank.{tank, Spends, read};
ghost use Rattle.books.specs.Book.{Grown};
ghost use Rattle.stores.specs.Spans.{passed};
ghost use Rattle.conditions.specs.Lexer.{lexed};

use books::{Book, Feed, Handle};
use stores::meter::Meter;
use stores::span::Span;
use tokens::fault::{Fault, Step, StepExit};
use tokens::location::Location;
use tokens::token::Token;

// What is left of the line; `place` is where the last source token was read.
#[derive(Drop)]
pub struct IfLexer<'a, B> {
    pub tokens: Span,
    pub place: Location,
    pub book: &'a B,
}

// A feed is a book (a form of the project), so it hands the questions on.
impl<'a, B: Book> Book for IfLexer<'a, B> {
    ghost defs = { λ l. B.Book.defs l.book.now };

    ghost sound = { λ l. B.Book.sound l.book.now };

    fn find(&self, name: u32) -> Option<Handle> {
        self.book.find(name)
    }

    fn is_function(&self, handle: Handle) -> bool {
        self.book.is_function(handle)
    }

    fn arity(&self, handle: Handle) -> usize {
        self.book.arity(handle)
    }

    fn parameter(&self, handle: Handle, name: u32) -> Option<usize> {
        self.book.parameter(handle, name)
    }

    fn token(&self, handle: Handle, at: usize) -> Option<Token> {
        self.book.token(handle, at)
    }
}

impl<'a, B: Book> Feed for IfLexer<'a, B> {
    fn step(&mut self, meter: &mut Meter) -> Step<Token>
        ensures handles { Grown (B.Book.defs self.old.book.now) (B.Book.defs self.new.book.now) }
        ensures stores { Spends (tank meter.old) (tank meter.new) }
        ensures value { result ≡ lexed (read meter.old.working.items self.old.tokens) }
        ensures after { self.new.tokens ≡ passed (read meter.old.working.items self.old.tokens) self.old.tokens }
    {
        meter.next(&mut self.tokens).ok_or(StepExit::Finished)
    }

    fn place(&self) -> Location {
        self.place
    }

    // `__LINE__` is the token's own line.
    fn apply_line_offset(&self, line: u32, _location: Location) -> Result<u32, Fault> {
        Ok(line)
    }
}

// One move: the top macro is read on, or else the input of the level.
ghost use Rattle.std.specs.Prelude.{◌≡◌, ◌+◌, ◌<◌, vec_len};
ghost use Rattle.stores.specs.Tank.{read};
ghost use Rattle.expansion.specs.Processor.{view, top};
ghost use Rattle.expansion.specs.Phases.{on_arg, on_word, in_use, in_input, Read};

use crate::invocation::DefineInvocation;
use crate::processor::MacroProcessor;
use books::Book;
use stores::meter::Meter;
use stores::records::{Named, pop};
use stores::span::Span;
use tokens::fault::{Step, StepExit};
use tokens::token::Token;

impl DefineInvocation {
    // The next token of the argument that is read in the body's place.
    fn read_argument(&mut self, s: Span, meter: &Meter) -> Step<Token>
        ensures value { result ≡ (on_arg (read meter.now.working.items s) s self.old).0 }
        ensures after { self.new ≡ (on_arg (read meter.now.working.items s) s self.old).1 }
    {
        let x = meter.read(s);
        self.reading = x.map(|_| s.onward());
        x.ok_or(StepExit::Continue)
    }

    // A token of the body: a parameter begins its argument.
    fn read_word(&mut self, x: Token, argument: Option<Span>) -> Step<Token>
        requires { self.old.at < 2048 }
        ensures value { result ≡ (on_word argument x self.old).0 }
        ensures after { self.new ≡ (on_word argument x self.old).1 }
    {
        // by its place, as the body lies in the book
        self.at += 1;
        if argument.is_none() {
            return Ok(x);
        }
        self.reading = argument;
        Err(StepExit::Continue)
    }
}

impl MacroProcessor {
    // The top macro is read on. Where its body is used up, it leaves the stack.
    pub fn read_invocation<B: Book>(&mut self, book: &B, meter: &Meter) -> Step<Token>
        requires { 0 < vec_len self.old.invocations }
        ensures { Read (in_use (top (self.old.invocations.items)).reading (B.Book.defs book.now) meter.now.working.items self.old.invocations.items self.old.arguments.items) (view self.old) result (view self.new) }
    {
        // by its place, as `argument` reads the processor before the top changes
        let n = self.invocations.len();
        let u = self.invocations[n - 1];
        if let Some(s) = u.reading {
            return self.invocations[n - 1].read_argument(s, meter);
        }
        let Some(x) = book.token(u.handle, u.at) else {
            let _ = pop(&mut self.invocations);
            return Err(StepExit::Continue);
        };
        let argument = x
            .name()
            .and_then(|name| book.parameter(u.handle, name))
            .map(|i| self.argument(n - 1, i));
        self.invocations[n - 1].read_word(x, argument)
    }

    // The next token of the argument that this level expands.
    pub fn read_input(&mut self, meter: &Meter) -> Step<Token>
        ensures value { result ≡ (in_input (read meter.now.working.items self.old.level.input) (view self.old)).0 }
        ensures after { view self.new ≡ (in_input (read meter.now.working.items self.old.level.input) (view self.old)).1 }
    {
        meter.next(&mut self.level.input).ok_or(StepExit::Finished)
    }
}

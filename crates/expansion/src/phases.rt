// What each phase makes of the step that it meets.
ghost use Rattle.std.specs.Prelude.{◌≡◌, ◌+◌, ◌<◌, Some, vec_len};
ghost use Rattle.stores.specs.Tank.{tank};
ghost use Rattle.expansion.specs.Processor.{view, base, expanding, named, fault};
ghost use Rattle.expansion.specs.Phases.{barred, starting, quiet, entered, passed, begun, parted, split, reached, opened, descended, bare, counted, closed, storing, gathered, returned, finished, holding, meeting, Made};
ghost use Rattle.expansion.specs.Sane.{Sane, Placed};
ghost use Rattle.expansion.specs.Delimiters.{delimits};

use crate::delimiter::Delimiter;
use crate::invocation::{Call, Callee, DefineInvocation, Level, Pending, Phase};
use crate::processor::{MAX_ARGUMENTS, MAX_INVOCATIONS, MAX_LEVELS, MacroProcessor};
use books::Book;
use std::cmp::Ordering;
use stores::meter::Meter;
use stores::records::{Named, find, push};
use stores::span::Span;
use tokens::fault::{Fault, Layer, PreprocessorError, Step, StepExit};
use tokens::location::Location;
use tokens::token::{Token, TokenValue};

impl Named for DefineInvocation {
    ghost key = { λ u. Some u.name };

    fn name(&self) -> Option<u32> {
        Some(self.name)
    }
}

pub fn fail(error: PreprocessorError, location: Location) -> Step<Token>
    ensures { result ≡ fault error location }
{
    Err(Fault::new(error, location, Layer::Expansion).into())
}

impl Callee {
    // The name that the call begins with.
    fn token(self) -> Token
        ensures { result ≡ named self }
    {
        Token {
            value: TokenValue::Ident(self.name),
            location: self.location,
        }
    }

    fn opened(self, location: Location, from: usize) -> Call
        ensures { result ≡ opened self location from }
    {
        Call {
            callee: self,
            paren: location,
            last: location,
            nesting: 0,
            from,
            count: 0,
        }
    }
}

impl Call {
    // The current argument is whole: it ends at the mark.
    fn split(self, location: Location, mark: usize) -> Call
        ensures { result ≡ split self location mark }
    {
        Call {
            last: location,
            from: mark,
            count: self.count.saturating_add(1).min(MAX_ARGUMENTS + 1),
            ..self
        }
    }

    fn reached(self, nesting: u32, location: Location) -> Call
        ensures { result ≡ reached self nesting location }
    {
        Call {
            last: location,
            nesting,
            ..self
        }
    }
}

// The book and the meter stay two parameters: the book is a loan of the feed, and most phases want only one of them.
impl MacroProcessor {
    // Where the macros of the current level begin.
    pub fn base(&self) -> usize
        ensures { result ≡ base self.now.below.items }
    {
        self.below.last().map_or(0, |q| q.end)
    }

    pub fn is_expanding_define(&self) -> bool
        ensures { result ≡ expanding (view self.now) }
    {
        self.base() < self.invocations.len()
    }

    // Whether the name is in expansion, at any level.
    #[tactic(auto, using(crate::proofs::Bars::bars_is))]
    pub fn bars(&self, name: u32) -> bool
        ensures { result ≡ barred self.now.invocations.items name }
    {
        find(&self.invocations, name).is_some()
    }

    // The line of the first macro in expansion is the one that counts.
    fn note_line(&mut self, line: u32)
        ensures { view self.new ≡ starting (view self.old) line }
    {
        if !self.is_expanding_define() {
            self.level.line = line;
        }
    }

    // Level 0 answers that it goes on; a deeper level only goes on.
    fn quiet(&self) -> Option<Step<Token>>
        ensures { result ≡ quiet self.now.below.items }
    {
        self.below.is_empty().then_some(Err(StepExit::Continue))
    }

    // The macro goes on the stack, with the first `count` arguments of this level's call.
    fn enter(&mut self, callee: Callee, count: usize) -> Option<Step<Token>>
        requires { vec_len self.old.invocations < 513 }
        ensures value { result ≡ (entered (view self.old) callee count).0 }
        ensures after { view self.new ≡ (entered (view self.old) callee count).1 }
    {
        let slot = self.call_slot();
        let place = self.invocations.len();
        self.copy_arguments(slot, place, count);
        let invocation = DefineInvocation {
            name: callee.name,
            handle: callee.handle,
            at: 0,
            reading: None,
        };
        let _ = push(&mut self.invocations, MAX_INVOCATIONS, invocation);
        self.phase = Phase::Plain;
        self.quiet()
    }

    // A token passes: out of the processor, or into the argument that this level expands.
    fn pass(&self, x: Token, meter: &mut Meter) -> Option<Step<Token>>
        ensures { Made (passed (view self.now) (tank meter.old) x) result (view self.now) (tank meter.new) }
    {
        if self.below.is_empty() {
            return Some(Ok(x));
        }
        meter.build(x).err().map(|error| fail(error, x.location))
    }

    // A name is met: it starts an expansion, may be a call, or passes.
    #[tactic(auto, using(crate::proofs::Places::room_begun))]
    pub fn begin<B: Book>(
        &mut self,
        x: Token,
        name: u32,
        book: &B,
        meter: &mut Meter,
    ) -> Option<Step<Token>>
        requires { Sane (B.Book.defs book.now) self.old.invocations.items self.old.below.items }
        ensures { Made (begun (B.Book.defs book.now) (view self.old) (tank meter.old) x name) result (view self.new) (tank meter.new) }
    {
        if self.bars(name) {
            return self.pass(x, meter);
        }
        let Some(handle) = book.find(name) else {
            return self.pass(x, meter);
        };
        self.note_line(x.location.line);
        let callee = Callee {
            name,
            handle,
            location: x.location,
        };
        if book.is_function(handle) {
            self.phase = Phase::Met(callee);
            return None;
        }
        self.enter(callee, 0)
    }

    // An argument is to be expanded, one level deeper.
    fn descend(&mut self, call: Call, next: usize, meter: &Meter) -> Option<Step<Token>>
        ensures { Made (descended (view self.old) (tank meter.now) call next) result (view self.new) (tank meter.now) }
    {
        let level = Level {
            input: self.argument(self.call_slot(), next),
            start: meter.building.len(),
            line: 0,
        };
        let pending = Pending {
            call,
            next,
            level: self.level,
            end: self.invocations.len(),
        };
        let Ok(()) = push(&mut self.below, MAX_LEVELS, pending) else {
            return Some(fail(PreprocessorError::TooManyLevels, call.callee.location));
        };
        self.phase = Phase::Plain;
        self.level = level;
        None
    }

    // Whether one empty argument stands for none.
    fn bare(&self, call: Call, arity: usize) -> bool
        ensures { result ≡ bare (view self.now) call arity }
    {
        let s = self.argument(self.call_slot(), 0);
        arity == 0 && call.count == 1 && s.from == s.to
    }

    // The arguments are counted.
    fn count(&mut self, call: Call, arity: usize, meter: &Meter) -> Option<Step<Token>>
        ensures { Made (counted (view self.old) (tank meter.now) call arity) result (view self.new) (tank meter.now) }
    {
        match call.count.cmp(&arity) {
            Ordering::Greater if !self.bare(call, arity) => Some(fail(
                PreprocessorError::TooManyDefineArguments,
                call.paren,
            )),
            Ordering::Less => Some(fail(PreprocessorError::TooFewDefineArguments, call.paren)),
            Ordering::Greater | Ordering::Equal => self.descend(call, 0, meter),
        }
    }

    // The current argument ends at the mark.
    fn part(&mut self, call: Call, mark: usize)
        ensures { view self.new ≡ parted (view self.old) call mark }
    {
        let argument = Span {
            from: call.from,
            to: mark,
        };
        let slot = self.call_slot();
        self.set_argument(slot, call.count, argument);
    }

    // The call's own `)`.
    fn close<B: Book>(
        &mut self,
        call: Call,
        location: Location,
        book: &B,
        meter: &Meter,
    ) -> Option<Step<Token>>
        ensures { Made (closed (B.Book.defs book.now) (view self.old) (tank meter.now) call location) result (view self.new) (tank meter.now) }
    {
        let mark = meter.working.len();
        self.part(call, mark);
        self.note_line(location.line);
        self.count(
            call.split(location, mark),
            book.arity(call.callee.handle),
            meter,
        )
    }

    // A token of an argument is stored.
    fn keep(&mut self, call: Call, x: Token, meter: &mut Meter) -> Option<Step<Token>>
        ensures { Made (storing (view self.old) (tank meter.old) call x) result (view self.new) (tank meter.new) }
    {
        match meter.store(x) {
            Ok(()) => {
                self.phase = Phase::Gather(call);
                None
            }
            Err(error) => Some(fail(error, x.location)),
        }
    }
}

impl MacroProcessor {
    // A token of a call's arguments.
    fn gather<B: Book>(
        &mut self,
        call: Call,
        x: Token,
        book: &B,
        meter: &mut Meter,
    ) -> Option<Step<Token>>
        ensures { Made (gathered (delimits x.value) (B.Book.defs book.now) (view self.old) (tank meter.old) call x) result (view self.new) (tank meter.new) }
    {
        match Delimiter::from(x.value) {
            Delimiter::Open => match call.nesting.checked_add(1) {
                Some(nesting) => self.keep(call.reached(nesting, x.location), x, meter),
                None => Some(fail(PreprocessorError::IntegerOverflow, x.location)),
            },
            Delimiter::Close if call.nesting == 0 => self.close(call, x.location, book, meter),
            Delimiter::Close => self.keep(call.reached(call.nesting - 1, x.location), x, meter),
            Delimiter::Comma if call.nesting == 0 => {
                let mark = meter.working.len();
                self.part(call, mark);
                self.phase = Phase::Gather(call.split(x.location, mark));
                None
            }
            Delimiter::Comma | Delimiter::Other => {
                self.keep(call.reached(call.nesting, x.location), x, meter)
            }
        }
    }

    // The next argument is expanded, or the macro goes on the stack.
    fn resume(&mut self, done: usize, call: Call, meter: &Meter) -> Option<Step<Token>>
        requires { vec_len self.old.invocations < 513 }
        ensures { Made (returned (view self.old) (tank meter.now) done call) result (view self.new) (tank meter.now) }
    {
        match done.checked_add(1) {
            Some(next) if next < call.count => self.descend(call, next, meter),
            _ => self.enter(call.callee, call.count),
        }
    }

    // The input of this level is used up: the level below goes on.
    fn finish(&mut self, meter: &mut Meter) -> Option<Step<Token>>
        requires { Placed self.old.below.items }
        ensures { Made (finished (view self.old) (tank meter.old)) result (view self.new) (tank meter.new) }
    {
        let Some(
            Pending {
                call,
                next,
                level,
                end,
            },
        ) = self.below.pop()
        else {
            return Some(Err(StepExit::Finished));
        };
        let part = meter.shift(self.level.start);
        self.phase = Phase::Plain;
        self.level = level;
        self.invocations.truncate(end);
        let slot = self.call_slot();
        self.set_argument(slot, next, part);
        self.resume(next, call, meter)
    }

    // What follows a function-like name that is no call is held back, and the name passes.
    fn hold(&mut self, callee: Callee, step: Step<Token>, meter: &mut Meter) -> Option<Step<Token>>
        ensures { Made (holding (view self.old) (tank meter.old) callee step) result (view self.new) (tank meter.new) }
    {
        self.phase = Phase::Held(step);
        self.pass(callee.token(), meter)
    }

    // One match on what the processor is doing and what it meets: a form of the project.
    #[tactic(auto, using(crate::proofs::Places::room_placed))]
    pub fn meet<B: Book>(
        &mut self,
        met: Step<Token>,
        book: &B,
        meter: &mut Meter,
    ) -> Option<Step<Token>>
        requires { Sane (B.Book.defs book.now) self.old.invocations.items self.old.below.items }
        ensures { Made (meeting self.old.phase met (B.Book.defs book.now) (view self.old) (tank meter.old)) result (view self.new) (tank meter.new) }
    {
        match (self.phase, met) {
            (Phase::Plain, Ok(x)) => match x.name() {
                Some(name) => self.begin(x, name, book, meter),
                None => self.pass(x, meter),
            },
            (Phase::Plain, Err(StepExit::Continue)) => self.quiet(),
            (Phase::Plain, Err(StepExit::Finished)) => self.finish(meter),
            (Phase::Met(callee), Ok(x)) if Delimiter::from(x.value) == Delimiter::Open => {
                let from = meter.working.len();
                self.phase = Phase::Gather(callee.opened(x.location, from));
                None
            }
            // moves spent is never held back
            (Phase::Met(_), Err(StepExit::Error(f)))
                if matches!(f.error, PreprocessorError::MovesSpent) => Some(met),
            (Phase::Met(callee), Ok(_) | Err(StepExit::Finished | StepExit::Error(_))) => {
                self.hold(callee, met, meter)
            }
            (Phase::Gather(call), Ok(x)) => self.gather(call, x, book, meter),
            (Phase::Gather(call), Err(StepExit::Finished)) => Some(fail(
                PreprocessorError::UnexpectedEndOfInput,
                call.last,
            )),
            (Phase::Plain | Phase::Gather(_), Err(StepExit::Error(_))) => Some(met),
            (Phase::Met(_) | Phase::Gather(_), Err(StepExit::Continue)) | (Phase::Held(_), _) =>
                None,
        }
    }
}

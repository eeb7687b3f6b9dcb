// Set-up, next and host definitions.
ghost use Rattle.std.specs.Prelude.{◌≡◌, ◌-◌, ◌<◌, ◌≤◌, [], IfOk, Some, None, MatchResult, OnErr, OnOk};
ghost use Rattle.stores.specs.Tank.{fresh};
ghost use Rattle.defines.specs.Changes.{empty};
ghost use Rattle.expansion.specs.Moved.{PaysFor};
ghost use Rattle.books.specs.Book.{Grown, Kept};
ghost use Rattle.preprocessor.specs.Runs.{spent_of, book_of, in_expansion, Repeats, Still, Refused};

use crate::state::Preprocessor;
use directives::processor::DirectiveProcessor;
use expansion::expander::Expander;
use expansion::processor::MacroProcessor;
use sources::source::Source;
use std::alloc::{AllocError, Global};
use stores::meter::Meter;
use tokens::fault::{Fault, Step, StepExit};
use tokens::lexer::LexerToken;
use tokens::token::Token;

impl<S: Source + Drop> Preprocessor<S> {
    // All memory is taken here.
    pub fn new(heap: Global, source: S, budget: u64) -> Result<Preprocessor<S>, AllocError>
        ensures { IfOk result (λ p. (S.means p.directives.reader.source ≡ S.means source) × (book_of p ≡ empty) × (p.directives.blocks.stack.items ≡ []) × (in_expansion p ≡ []) × (spent_of p ≡ fresh budget) × (p.fault ≡ None)) }
    {
        let directives = DirectiveProcessor::new(heap, source)?;
        let processor = MacroProcessor::new(heap)?;
        let meter = Meter::new(heap, budget)?;
        Ok(Preprocessor {
            directives,
            processor,
            meter,
            fault: None,
        })
    }
}

impl<S: Source> Preprocessor<S> {
    // With nothing in expansion the working tokens of the text are given back first.
    fn step(&mut self) -> Step<Token>
        ensures pays { PaysFor result (spent_of self.old) (spent_of self.new) }
        ensures budget { (spent_of self.new).budget ≡ (spent_of self.old).budget }
        ensures moves { (spent_of self.old).moves ≤ (spent_of self.new).moves }
        ensures fault { self.new.fault ≡ self.old.fault }
    {
        if self.processor.invocations.is_empty() {
            self.meter.clear();
        }
        let mut expander = Expander {
            processor: &mut self.processor,
            feed: &mut self.directives,
            meter: &mut self.meter,
        };
        expander.step()
    }

    // The next token, or none at the end. A fault, once answered, is answered again (two lines here and below: no function of its own).
    pub fn next(&mut self) -> Result<Option<Token>, Fault>
        ensures pays { OnOk result ((spent_of self.old).moves < (spent_of self.new).moves) }
        ensures budget { (spent_of self.new).budget ≡ (spent_of self.old).budget }
        ensures repeats { Repeats self.old.fault result }
        ensures still { Still self.old.fault self.old self.new }
        ensures answered { MatchResult result (λ _. self.new.fault ≡ None) (λ f. self.new.fault ≡ Some f) }
    {
        if let Some(fault) = self.fault {
            return Err(fault);
        }
        loop {
            // a match, as its arms do different things
            match self.step() {
                Ok(token) => return Ok(Some(token)),
                Err(StepExit::Finished) => return Ok(None),
                Err(StepExit::Continue) => {}
                Err(StepExit::Error(fault)) => {
                    self.fault = Some(fault);
                    return Err(fault);
                }
            }
        }
    }

    // A definition that the host makes; refused, it leaves the run as it was. An answered fault is answered again, as by `next`.
    pub fn add_define(&mut self, name: u32, tokens: &[LexerToken]) -> Result<(), Fault>
        ensures repeats { Repeats self.old.fault result }
        ensures refused { OnErr result (Refused self.old self.new) }
        ensures handles { Grown (book_of self.old) (book_of self.new) }
        ensures names { Kept (book_of self.old) (book_of self.new) }
    {
        if let Some(fault) = self.fault {
            return Err(fault);
        }
        self.directives.add_define(name, tokens)
    }
}

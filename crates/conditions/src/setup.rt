// A parser as it is set up, and as it begins a directive.
ghost use Rattle.std.specs.Prelude.{◌≡◌, IfOk, None};
ghost use Rattle.expansion.specs.Processor.{view, fresh};

use crate::if_parser::IfParser;
use expansion::processor::MacroProcessor;
use std::alloc::{AllocError, Global};
use tokens::location::Location;

impl IfParser {
    pub fn new(heap: Global) -> Result<IfParser, AllocError>
        ensures { IfOk result (λ p. (view p.processor ≡ fresh p.processor.arguments.items) × (p.carry ≡ None)) }
    {
        let processor = MacroProcessor::new(heap)?;
        Ok(IfParser {
            processor,
            carry: None,
            location: Location::default(),
            parsing_if: false,
        })
    }

    // Nothing is in expansion, and no token is carried.
    pub fn begin(&mut self, location: Location, parsing_if: bool)
        ensures processor { view self.new.processor ≡ fresh self.old.processor.arguments.items }
        ensures carry { self.new.carry ≡ None }
        ensures location { self.new.location ≡ location }
        ensures zeros { self.new.parsing_if ≡ parsing_if }
    {
        self.processor.reset();
        self.carry = None;
        self.location = location;
        self.parsing_if = parsing_if;
    }
}

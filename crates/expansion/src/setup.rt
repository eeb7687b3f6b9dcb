// A processor as it is set up, and as it begins anew.
ghost use Rattle.std.specs.Prelude.{◌≡◌, ◌<◌, IfOk};
ghost use Rattle.expansion.specs.Processor.{view, fresh};

use crate::invocation::{Level, Phase};
use crate::processor::{MAX_ARGUMENTS, MAX_INVOCATIONS, MAX_LEVELS, MacroProcessor, SLOTS};
use std::alloc::{AllocError, Global};
use stores::span::Span;

impl MacroProcessor {
    pub fn new(heap: Global) -> Result<MacroProcessor, AllocError>
        ensures { IfOk result (λ p. view p ≡ fresh p.arguments.items) }
    {
        let below = Vec::with_capacity(heap, MAX_LEVELS)?;
        let invocations = Vec::with_capacity(heap, MAX_INVOCATIONS)?;
        let arguments = vec![in heap; Span::default(); SLOTS * MAX_ARGUMENTS]?;
        Ok(MacroProcessor {
            phase: Phase::Plain,
            level: Level::default(),
            below,
            invocations,
            arguments,
        })
    }

    // Nothing is in expansion, and nothing is held back.
    pub fn reset(&mut self)
        ensures { view self.new ≡ fresh self.old.arguments.items }
    {
        self.phase = Phase::Plain;
        self.level = Level::default();
        self.below.clear();
        self.invocations.clear();
    }
}

// The arguments of calls, in slots of 32: one for each macro in expansion, then one for the call of each level.
ghost use Rattle.std.specs.Prelude.{◌≡◌, ◌+◌, ◌*◌, ◌<◌};
ghost use Rattle.expansion.specs.Processor.{view, argued};
ghost use Rattle.expansion.specs.Arguments.{arg_at, with_arg, copied, slot_of_call};

use crate::processor::{MAX_ARGUMENTS, MAX_INVOCATIONS, MacroProcessor, SLOTS};
use stores::span::Span;

impl MacroProcessor {
    // The slot of the current level's call.
    pub fn call_slot(&self) -> usize
        ensures { result ≡ slot_of_call self.now.below.items }
    {
        MAX_INVOCATIONS + self.below.len()
    }

    // Tested here and in `set_argument`: the test keeps the product in range.
    pub fn argument(&self, slot: usize, i: usize) -> Span
        ensures { result ≡ arg_at self.now.arguments.items slot i }
    {
        if i < MAX_ARGUMENTS && slot < SLOTS {
            self.arguments[slot * MAX_ARGUMENTS + i]
        } else {
            Span::default()
        }
    }

    pub fn set_argument(&mut self, slot: usize, i: usize, s: Span)
        ensures { view self.new ≡ argued (view self.old) (with_arg self.old.arguments.items slot i s) }
    {
        if i < MAX_ARGUMENTS && slot < SLOTS {
            self.arguments[slot * MAX_ARGUMENTS + i] = s;
        }
    }

    // The first `count` arguments of a slot go to another.
    pub fn copy_arguments(&mut self, from: usize, to: usize, count: usize)
        ensures { view self.new ≡ argued (view self.old) (copied self.old.arguments.items from to count) }
    {
        // no `copy_within`: both slots and the count would have to be tested for range first
        for i in 0..count {
            let s = self.argument(from, i);
            self.set_argument(to, i, s);
        }
    }
}

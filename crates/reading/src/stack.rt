// Blocks are opened, changed and closed.
ghost use Rattle.std.specs.Prelude.{◌≡◌, ◌-◌, ◌<◌, false, [], length, take, is_ok, IfOk, IfErr, nat_lt};
ghost use Rattle.tokens.specs.declared.fault.PreprocessorError.TheVariants.{TooManyBlocks};
ghost use Rattle.stores.specs.Places.{latest};
ghost use Rattle.reading.specs.Blocks.{pushed, replaced};

use crate::blocks::{Blocks, DirectiveBlock};
use std::alloc::{AllocError, Global};
use stores::records;
use tokens::fault::PreprocessorError;

// At most this many blocks are open.
pub const MAX_BLOCKS: usize = 64;

impl Blocks {
    pub fn new(heap: Global) -> Result<Blocks, AllocError>
        ensures { IfOk result (λ b. (b.stack.items ≡ []) × (b.skipping ≡ false)) }
    {
        let stack = Vec::with_capacity(heap, MAX_BLOCKS)?;
        Ok(Blocks {
            stack,
            skipping: false,
        })
    }

    // How many blocks are open.
    pub fn count(&self) -> usize
        ensures { result ≡ length self.now.stack.items }
    {
        self.stack.len()
    }

    // One more block, unless 64 are open.
    pub fn begin(&mut self, block: DirectiveBlock, skipping: bool) -> Result<(), PreprocessorError>
        ensures value { is_ok result ≡ nat_lt (length self.old.stack.items) 64 }
        ensures refused { IfErr result (λ e. e ≡ TooManyBlocks) }
        ensures stack { self.new.stack.items ≡ pushed self.old.stack.items block }
        ensures skipping { self.new.skipping ≡ skipping }
    {
        self.skipping = skipping;
        let pushed = records::push(&mut self.stack, MAX_BLOCKS, block);
        pushed.map_err(|_| PreprocessorError::TooManyBlocks)
    }

    // The innermost block.
    pub fn top(&self) -> Option<DirectiveBlock>
        ensures { result ≡ latest self.now.stack.items }
    {
        records::top(&self.stack).copied()
    }

    // The innermost block changes.
    pub fn change(&mut self, block: DirectiveBlock, skipping: bool)
        ensures stack { self.new.stack.items ≡ replaced self.old.stack.items block }
        ensures skipping { self.new.skipping ≡ skipping }
    {
        self.skipping = skipping;
        if let Some(top) = self.stack.last_mut() {
            *top = block;
        }
    }

    // The innermost block is closed.
    pub fn close(&mut self) -> Option<DirectiveBlock>
        ensures value { result ≡ latest self.old.stack.items }
        ensures stack { self.new.stack.items ≡ take (length self.old.stack.items - 1) self.old.stack.items }
        ensures skipping { self.new.skipping ≡ self.old.skipping }
    {
        records::pop(&mut self.stack)
    }
}

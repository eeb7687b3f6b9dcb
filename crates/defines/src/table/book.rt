// The book that the definitions are.
ghost use Rattle.std.specs.Prelude.{◌≡◌, ◌+◌, ◌<◌, ◌≤◌, vec_len, slice_index_or};
ghost use Rattle.std.specs.List.{slice_get};
ghost use Rattle.books.specs.Book.{mean};
ghost use Rattle.defines.specs.Parts.{part_of, entry, key_of, vacant};
ghost use Rattle.defines.specs.Held.{held};
ghost use Rattle.defines.specs.Sounds.{held_sound};

use super::Defines;
use crate::define::Define;
use books::{Book, Handle};
use stores::records;
use stores::records::Named;
use tokens::token::{Part, Token};

// A definition in force is found by its name.
impl Named for Define {
    ghost key = { key_of };

    fn name(&self) -> Option<u32> {
        self.in_force.then_some(self.name)
    }
}

impl Defines {
    // An empty definition out of force where no definition has the handle.
    pub(super) fn define(&self, handle: Handle) -> Define
        ensures value { result ≡ slice_index_or self.now.table.items handle vacant }
        ensures means { (entry self.now.kept.items result).def ≡ mean (held self.now) handle }
    {
        self.table.get(handle).copied().unwrap_or_default()
    }

    // A token of a part, none where the part or the store ends.
    pub fn part_token(&self, part: Part, i: usize) -> Option<Token>
        ensures { result ≡ slice_get (part_of self.now.kept.items part) i }
    {
        if i < part.len {
            self.kept.get(part.start.checked_add(i)?).copied()
        } else {
            None
        }
    }
}

impl Book for Defines {
    ghost defs = { held };

    ghost sound = { held_sound };

    fn find(&self, name: u32) -> Option<Handle> {
        records::find(self.table.as_slice(), name)
    }

    fn is_function(&self, handle: Handle) -> bool {
        self.define(handle).function_like
    }

    fn arity(&self, handle: Handle) -> usize {
        self.define(handle).params.len
    }

    fn parameter(&self, handle: Handle, name: u32) -> Option<usize> {
        let params = self.define(handle).params.of(&self.kept);
        records::find(params, name)
    }

    fn token(&self, handle: Handle, at: usize) -> Option<Token> {
        self.part_token(self.define(handle).tokens, at)
    }
}

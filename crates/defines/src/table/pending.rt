// The tokens of the directive that is being read lie past the mark.
ghost use Rattle.std.specs.Prelude.{◌≡◌, ◌+◌, ◌-◌, ◌<◌, false, ltb, [], ◌∷◌, ◌++◌, map, length, drop, is_ok, is_some, IfOk, IfErr, if◌then◌else◌, vec_len, nat_lt};
ghost use Rattle.tokens.specs.declared.fault.PreprocessorError.TheVariants.{KeptTokensFull, TooManyParameters};
ghost use Rattle.stores.specs.Places.{place};
ghost use Rattle.stores.specs.Idents.{ident_of};
ghost use Rattle.books.specs.Book.{mean};
ghost use Rattle.defines.specs.Changes.{empty};
ghost use Rattle.defines.specs.Parts.{part_of};
ghost use Rattle.defines.specs.Held.{held, settled, parameters, replacement, pending};
ghost use Rattle.defines.specs.Values.{legal};

use super::Defines;
use super::changes::MAX_DEFINES;
use crate::redefine::same_tokens;
use books::Handle;
use std::alloc::{AllocError, Global};
use stores::records;
use tokens::fault::PreprocessorError;
use tokens::token::{Part, Token};

// At most this many tokens are kept.
pub const MAX_KEPT: usize = 2048;

// A definition has at most this many parameters.
pub const MAX_PARAMETERS: usize = 32;

impl Defines {
    pub fn new(heap: Global) -> Result<Defines, AllocError>
        ensures { IfOk result (λ s. (held s ≡ empty) × (s.kept.items ≡ []) × (s.mark ≡ 0) × (s.body ≡ 0)) }
    {
        let kept = Vec::with_capacity(heap, MAX_KEPT)?;
        let table = Vec::with_capacity(heap, MAX_DEFINES)?;
        Ok(Defines {
            kept,
            table,
            mark: 0,
            body: 0,
        })
    }

    // What was read of a directive is given back.
    pub fn give_back(&mut self)
        ensures defs { held self.new ≡ held self.old }
        ensures kept { self.new.kept.items ≡ settled self.old }
        ensures mark { self.new.mark ≡ self.old.mark }
        ensures body { self.new.body ≡ self.old.mark }
    {
        self.kept.truncate(self.mark);
        self.body = self.mark;
    }

    // One more token of a body or of a passed directive, unless the store is full.
    pub fn keep(&mut self, x: Token) -> Result<(), PreprocessorError>
        ensures value { is_ok result ≡ nat_lt (vec_len self.old.kept) 2048 }
        ensures refused { IfErr result (λ e. e ≡ KeptTokensFull) }
        ensures defs { held self.new ≡ held self.old }
        ensures kept { self.new.kept.items ≡ (if is_ok result then self.old.kept.items ++ x ∷ [] else self.old.kept.items) }
        ensures mark { self.new.mark ≡ self.old.mark }
        ensures body { self.new.body ≡ self.old.body }
    {
        let pushed = records::push(&mut self.kept, MAX_KEPT, x);
        pushed.map_err(|_| PreprocessorError::KeptTokensFull)
    }

    // One more parameter, unless 32 tokens are there or the store is full. All that lies past the mark are then parameters.
    pub fn keep_parameter(&mut self, x: Token) -> Result<(), PreprocessorError>
        ensures value { is_ok result ≡ (if ltb (vec_len self.old.kept) 2048 then nat_lt (vec_len self.old.kept - self.old.mark) 32 else false) }
        ensures refused { IfErr result (λ e. e ≡ (if nat_lt (vec_len self.old.kept - self.old.mark) 32 then KeptTokensFull else TooManyParameters)) }
        ensures defs { held self.new ≡ held self.old }
        ensures kept { self.new.kept.items ≡ (if is_ok result then self.old.kept.items ++ x ∷ [] else self.old.kept.items) }
        ensures mark { self.new.mark ≡ self.old.mark }
        ensures body { self.new.body ≡ (if is_ok result then vec_len self.new.kept else self.old.body) }
    {
        if self.kept.len() - self.mark >= MAX_PARAMETERS {
            return Err(PreprocessorError::TooManyParameters);
        }
        self.keep(x)?;
        self.body = self.kept.len();
        Ok(())
    }

    pub fn pending_parameters(&self) -> usize
        ensures count { result ≡ self.now.body - self.now.mark }
        ensures value { result ≡ length (parameters self.now) }
    {
        self.body - self.mark
    }

    // Whether a parameter of the definition that is being read bears this name.
    pub fn is_pending_parameter(&self, name: u32) -> bool
        ensures { result ≡ is_some (place 0 name (map ident_of (parameters self.now))) }
    {
        let params = &self.kept[self.mark..self.body];
        records::find(params, name).is_some()
    }

    // Whether the definition that is being read may be given again for one that stands: it is the same up to where its tokens stand.
    // Step by step: one chain of `&&` was tried, and its cases were not proved.
    pub fn legal_redefinition(&self, handle: Handle, function_like: bool) -> bool
        ensures { result ≡ legal (mean (held self.now) handle) function_like (parameters self.now) (replacement self.now) }
    {
        let previous = self.define(handle);
        if previous.function_like != function_like {
            return false;
        }
        if !same_tokens(
            previous.params.of(&self.kept),
            &self.kept[self.mark..self.body],
        ) {
            return false;
        }
        same_tokens(previous.tokens.of(&self.kept), &self.kept[self.body..])
    }

    // What was read becomes the tokens of a passed directive, for ever.
    pub fn pass(&mut self) -> Part
        ensures value { result ≡ pending self.old }
        ensures tokens { part_of self.new.kept.items result ≡ drop self.old.mark self.old.kept.items }
        ensures defs { held self.new ≡ held self.old }
        ensures kept { self.new.kept.items ≡ self.old.kept.items }
        ensures mark { self.new.mark ≡ vec_len self.old.kept }
        ensures body { self.new.body ≡ vec_len self.old.kept }
    {
        let start = self.mark;
        let end = self.kept.len();
        self.mark = end;
        self.body = end;
        Part {
            start,
            len: end - start,
        }
    }
}

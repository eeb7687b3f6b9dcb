// The methods of the meter.
ghost use Rattle.std.specs.Prelude.{◌≡◌, ◌+◌, ◌<◌, ltb, length, is_ok, IfOk, IfErr, if◌then◌else◌, nat_lt};
ghost use Rattle.tokens.specs.declared.fault.PreprocessorError.TheVariants.{WorkingTokensFull, MovesSpent};
ghost use Rattle.std.specs.List.{slice_get};
ghost use Rattle.stores.specs.Spans.{passed};
ghost use Rattle.stores.specs.Tank.{tank, roomy, stored, built, shifted, whole, spending, emptied, cut, fresh, read};

use crate::guard::Mark;
use crate::meter::Meter;
use crate::records::push;
use crate::span::Span;
use std::alloc::{AllocError, Global};
use tokens::fault::PreprocessorError;
use tokens::token::Token;

// At most this many tokens are stored.
pub const WORKING: usize = 2048;

impl Meter {
    pub fn new(heap: Global, budget: u64) -> Result<Meter, AllocError>
        ensures { IfOk result (λ m. tank m ≡ fresh budget) }
    {
        let working = Vec::with_capacity(heap, WORKING)?;
        let building = Vec::with_capacity(heap, WORKING)?;
        Ok(Meter {
            moves: 0,
            budget,
            working,
            building,
        })
    }

    // How many tokens are stored.
    pub fn stored(&self) -> usize
        ensures { result ≡ length (tank self.now).working + length (tank self.now).building }
    {
        self.working.len() + self.building.len()
    }

    // The token at a place of the working store.
    pub fn at(&self, i: usize) -> Option<Token>
        ensures { result ≡ slice_get self.now.working.items i }
    {
        self.working.get(i).copied()
    }

    // The token at the start of a part of the working store.
    pub fn read(&self, s: Span) -> Option<Token>
        ensures { result ≡ read self.now.working.items s }
    {
        if s.from < s.to { self.at(s.from) } else { None }
    }

    // The token at the start of a part, taken off it.
    pub fn next(&self, s: &mut Span) -> Option<Token>
        ensures value { result ≡ read self.now.working.items s.old }
        ensures after { s.new ≡ passed (read self.now.working.items s.old) s.old }
    {
        let x = self.read(*s)?;
        *s = s.onward();
        Some(x)
    }

    // A gathered token, unless the store is full.
    pub fn store(&mut self, x: Token) -> Result<(), PreprocessorError>
        ensures test { is_ok result ≡ roomy (tank self.old) }
        ensures after { tank self.new ≡ (if roomy (tank self.old) then stored (tank self.old) x else tank self.old) }
        ensures refused { IfErr result (λ e. e ≡ WorkingTokensFull) }
    {
        let room = WORKING - self.building.len();
        push(&mut self.working, room, x).map_err(|_| PreprocessorError::WorkingTokensFull)
    }

    // A token that a level puts out, unless the store is full. A function for each store: each is a line over the one push.
    pub fn build(&mut self, x: Token) -> Result<(), PreprocessorError>
        ensures test { is_ok result ≡ roomy (tank self.old) }
        ensures after { tank self.new ≡ (if roomy (tank self.old) then built (tank self.old) x else tank self.old) }
        ensures refused { IfErr result (λ e. e ≡ WorkingTokensFull) }
    {
        let room = WORKING - self.working.len();
        push(&mut self.building, room, x).map_err(|_| PreprocessorError::WorkingTokensFull)
    }

    // A move is spent, if one is granted.
    pub fn spend(&mut self) -> Result<(), PreprocessorError>
        ensures test { is_ok result ≡ nat_lt self.old.moves self.old.budget }
        ensures after { tank self.new ≡ (if ltb self.old.moves self.old.budget then spending (tank self.old) (self.old.moves + 1) else tank self.old) }
        ensures refused { IfErr result (λ e. e ≡ MovesSpent) }
    {
        if self.moves < self.budget {
            self.moves += 1;
            Ok(())
        } else {
            Err(PreprocessorError::MovesSpent)
        }
    }

    // What was built from k on becomes a part of the working store.
    pub fn shift(&mut self, k: usize) -> Span
        ensures value { result ≡ whole k (tank self.old) }
        ensures after { tank self.new ≡ shifted (tank self.old) k }
    {
        let from = self.working.len();
        let k = k.min(self.building.len());
        let _ = self.working.extend_from_slice(&self.building[k..]);
        self.building.truncate(k);
        Span {
            from,
            to: self.working.len(),
        }
    }

    // All tokens are given back.
    pub fn clear(&mut self)
        ensures { tank self.new ≡ emptied (tank self.old) }
    {
        self.working.clear();
        self.building.clear();
    }

    // The tokens past a mark are given back.
    pub fn truncate(&mut self, mark: Mark)
        ensures { tank self.new ≡ cut (tank self.old) mark.working mark.building }
    {
        self.working.truncate(mark.working);
        self.building.truncate(mark.building);
    }
}

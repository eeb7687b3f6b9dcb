// The processor: what its current level is doing, the levels that wait below, and the macros in expansion at all levels.
ghost use Rattle.std.specs.Prelude.{◌≡◌, ◌≤◌, vec_len, vec_capacity};

use crate::invocation::{DefineInvocation, Level, Pending, Phase};
use stores::span::Span;

// The clauses write these limits as numbers, so that no change of a constant changes what is promised.

// At most this many levels wait.
pub const MAX_LEVELS: usize = 16;

// At most this many macros are in expansion: one more than there are definitions.
pub const MAX_INVOCATIONS: usize = 513;

// At most this many arguments of a call are kept.
pub const MAX_ARGUMENTS: usize = 32;

// One slot of arguments for each macro in expansion, and one for each level.
pub const SLOTS: usize = MAX_INVOCATIONS + MAX_LEVELS + 1;

#[derive(Drop)]
pub struct MacroProcessor {
    pub phase: Phase,
    pub level: Level,
    pub below: Vec<Pending>,
    pub invocations: Vec<DefineInvocation>,
    // 32 arguments for each macro in expansion, then for the call of each level
    pub arguments: Vec<Span>,
    ghost levels: { 16 ≤ vec_capacity below },
    ghost places: { 513 ≤ vec_capacity invocations },
    ghost slots: { vec_len arguments ≡ 16960 },
}

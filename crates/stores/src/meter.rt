// Moves and working tokens, shared by a processor and its feed.
ghost use Rattle.std.specs.Prelude.{◌+◌, ◌≤◌, vec_len, vec_capacity};

use tokens::token::Token;

#[derive(Drop)]
pub struct Meter {
    pub moves: u64,
    pub budget: u64,
    // gathered lines and finished arguments, raw and expanded
    pub working: Vec<Token>,
    // what the levels have put out so far of the arguments that they expand
    pub building: Vec<Token>,
    ghost room: { 2048 ≤ vec_capacity working },
    ghost space: { 2048 ≤ vec_capacity building },
    ghost small: { vec_len working + vec_len building ≤ 2048 },
    ghost within: { moves ≤ budget },
}

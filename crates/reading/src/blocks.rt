// The blocks that are open, and whether the text is skipped.
ghost use Rattle.std.specs.Prelude.{◌≤◌, vec_len, vec_capacity};

use tokens::location::Location;

#[derive(Clone, Copy)]
pub struct DirectiveBlock {
    pub start_location: Location,
    pub had_valid_segment: bool,
    pub had_else: bool,
    pub outer_skipped: bool,
}

#[derive(Drop)]
pub struct Blocks {
    pub stack: Vec<DirectiveBlock>,
    pub skipping: bool,
    ghost room: { 64 ≤ vec_capacity stack },
    ghost few: { vec_len stack ≤ 64 },
}

// The kept tokens and the definitions, in two stores whose room is taken at set-up.
ghost use Rattle.std.specs.Prelude.{◌+◌, ◌<◌, ◌≤◌, vec_len, vec_capacity};
ghost use Rattle.defines.specs.Parts.{Within, Once};

use crate::define::Define;
use tokens::token::Token;

pub mod book;
pub mod changes;
pub mod counts;
pub mod pending;
pub mod store;

#[derive(Drop)]
pub struct Defines {
    kept: Vec<Token>,
    table: Vec<Define>,
    // the tokens below the mark stay for ever; past it lie those of the directive that is being read
    mark: usize,
    // where the parameters past the mark end and the body begins
    body: usize,
    ghost room: { 2048 ≤ vec_capacity kept },
    ghost spaces: { 512 ≤ vec_capacity table },
    ghost small: { vec_len kept ≤ 2048 },
    ghost few: { vec_len table ≤ 512 },
    ghost ordered: { mark ≤ body },
    ghost inside: { body ≤ vec_len kept },
    ghost slim: { body ≤ mark + 32 },
    ghost within: { Within mark table.items },
    ghost once: { Once table.items },
}

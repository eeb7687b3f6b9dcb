// The table of names.
ghost use Rattle.std.specs.Prelude.{ℕ, List};
ghost use Rattle.names.specs.Spans.{listed, Sound};

use std::marker::Model;
use tokens::token::Part;

pub mod methods;

// The names in the order in which they came: name number i is the bytes at spans[i].
// No two are alike, and their bytes follow one another without a gap.
// All memory is reserved when the table is made, so the names lie in one store and are no strings of their own.
#[derive(Drop)]
pub struct Names {
    bytes: Vec<u8>,
    spans: Vec<Part>,
}

impl Model for Names {
    ghost Value = { List (List ℕ) };

    ghost view = { λ t. listed t.bytes.items t.spans.items };

    ghost invariant = { λ t. Sound t.bytes t.spans };
}

// Where a token stands in its source.
ghost use Rattle.std.specs.Prelude.{◌≡◌};
ghost use Rattle.tokens.specs.Places.{origin};

#[derive(Clone, Copy, PartialEq, Eq)]
pub struct Location {
    // offset of the first byte
    pub start: u32,
    // offset of the first byte behind
    pub end: u32,
    pub line: u32,
}

// The place of what has none of its own.
impl Default for Location {
    ghost is_default = { λ l. l ≡ origin };

    fn default() -> Location {
        Location {
            start: 0,
            end: 0,
            line: 1,
        }
    }
}

// A part of the working store, from its first token up to the first behind it.
ghost use Rattle.std.specs.Prelude.{◌≡◌, ◌+◌, ◌<◌};
ghost use Rattle.stores.specs.Spans.{onward};

// The default part is empty. It is read from the front, so it is no start with a length.
#[derive(Clone, Copy, Default)]
pub struct Span {
    pub from: usize,
    pub to: usize,
}

impl Span {
    // What is left of a part once its first token is read.
    pub fn onward(self) -> Span
        ensures { result ≡ onward self }
    {
        if self.from < self.to {
            Span {
                from: self.from + 1,
                ..self
            }
        } else {
            self
        }
    }
}

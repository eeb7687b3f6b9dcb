// A token as the preprocessor answers it.
ghost use Rattle.std.specs.Prelude.{◌≡◌, ◌+◌, ◌≤◌, length, take, drop, Some};
ghost use Rattle.tokens.specs.Texts.{integer_text, float_text, version_text, extension_text, pragma_text};

use crate::location::Location;
use crate::punct::Punct;
use std::fmt;

#[derive(Clone, Copy, PartialEq, Eq)]
pub struct Integer {
    pub value: u64,
    pub signed: bool,
    pub width: u16,
}

// A float by its 32-bit pattern.
#[derive(Clone, Copy)]
pub struct Float {
    pub bits: u32,
    pub width: u16,
}

// Neighbouring items of a store: the first, and how many.
#[derive(Clone, Copy, Default)]
pub struct Part {
    pub start: usize,
    pub len: usize,
}

impl Part {
    // These neighbouring items of a store.
    pub fn of<T>(self, items: &[T]) -> &[T]
        requires { self.start + self.len ≤ length items.now }
        ensures { result.now ≡ take self.len (drop self.start items.now) }
    {
        &items[self.start..][..self.len]
    }
}

#[derive(Clone, Copy)]
pub struct Version {
    pub tokens: Part,
    pub is_first_directive: bool,
    pub has_comments_before: bool,
}

#[derive(Clone, Copy)]
pub struct Extension {
    pub tokens: Part,
    pub has_non_directive_before: bool,
}

#[derive(Clone, Copy)]
pub struct Pragma {
    pub tokens: Part,
}

// A name goes by its number in the name table; the tokens of a passed directive lie in the run's kept store.
#[derive(Clone, Copy)]
pub enum TokenValue {
    Ident(u32),
    Integer(Integer),
    Float(Float),
    Punct(Punct),
    Version(Version),
    Extension(Extension),
    Pragma(Pragma),
}

#[derive(Clone, Copy)]
pub struct Token {
    pub value: TokenValue,
    pub location: Location,
}

// An integer in decimal.
impl fmt::Display for Integer {
    ghost output = { λ i. Some (integer_text i) };

    fn fmt<W: fmt::Write>(&self, f: &mut fmt::Formatter<W>) -> fmt::Result {
        let value = self.value;
        write!(f, "{value}")
    }
}

// A float by its bits.
impl fmt::Display for Float {
    ghost output = { λ x. Some (float_text x) };

    fn fmt<W: fmt::Write>(&self, f: &mut fmt::Formatter<W>) -> fmt::Result {
        let bits = self.bits;
        write!(f, "f{bits:08x}")
    }
}

// A passed directive is its word and how many tokens it has; a type each, as pp-rs has.
impl fmt::Display for Version {
    ghost output = { λ v. Some (version_text v) };

    fn fmt<W: fmt::Write>(&self, f: &mut fmt::Formatter<W>) -> fmt::Result {
        let count = self.tokens.len;
        write!(f, "version {count}")
    }
}

impl fmt::Display for Extension {
    ghost output = { λ e. Some (extension_text e) };

    fn fmt<W: fmt::Write>(&self, f: &mut fmt::Formatter<W>) -> fmt::Result {
        let count = self.tokens.len;
        write!(f, "extension {count}")
    }
}

impl fmt::Display for Pragma {
    ghost output = { λ p. Some (pragma_text p) };

    fn fmt<W: fmt::Write>(&self, f: &mut fmt::Formatter<W>) -> fmt::Result {
        let count = self.tokens.len;
        write!(f, "pragma {count}")
    }
}

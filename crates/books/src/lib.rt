// A book of definitions, and a book that can be read one step at a time.
#![tactic(auto)]

ghost use Rattle.std.specs.Prelude.{◌≡◌, ◌<◌, map, length};
ghost use Rattle.std.specs.List.{slice_get};
ghost use Rattle.stores.specs.Places.{place};
ghost use Rattle.stores.specs.Idents.{ident_of};
ghost use Rattle.stores.specs.Tank.{tank, Spends};
ghost use Rattle.books.specs.Book.{Defs, Sound, Grown, find, mean};

use stores::meter::Meter;
use tokens::fault::{Fault, Step};
use tokens::location::Location;
use tokens::token::Token;

// What stands for a definition for ever, through any `#undef`.
pub type Handle = usize;

pub trait Book {
    // The definitions in force, and what each handle means.
    ghost defs: { Self → Defs };

    ghost sound: { (s : Self) → Sound (defs s) };

    // The handle of a name in force, or nothing where the name is absent.
    fn find(&self, name: u32) -> Option<Handle>
        ensures value { result ≡ find (defs self.now) name };

    fn is_function(&self, handle: Handle) -> bool
        ensures value { result ≡ (mean (defs self.now) handle).function };

    fn arity(&self, handle: Handle) -> usize
        ensures value { result ≡ length (mean (defs self.now) handle).params };

    // The place of a parameter.
    fn parameter(&self, handle: Handle, name: u32) -> Option<usize>
        ensures value { result ≡ place 0 name (map ident_of (mean (defs self.now) handle).params) };

    // A token of the body.
    fn token(&self, handle: Handle, at: usize) -> Option<Token>
        ensures value { result ≡ slice_get (mean (defs self.now) handle).body at };
}

pub trait Feed: Book {
    // A step may change which names are in force, and changes no handle. It may spend moves, and gives back what it stored.
    fn step(&mut self, meter: &mut Meter) -> Step<Token>
        ensures handles { Grown (Self.Book.defs self.old) (Self.Book.defs self.new) }
        ensures stores { Spends (tank meter.old) (tank meter.new) };

    // Where the last source token was read.
    fn place(&self) -> Location;

    // The line that `__LINE__` shows for a line of the source.
    fn apply_line_offset(&self, line: u32, location: Location) -> Result<u32, Fault>;
}

// `#define`, `#undef` and the host's definitions.
ghost use Rattle.std.specs.Prelude.{◌≡◌, OnErr};
ghost use Rattle.books.specs.Book.{Grown, Kept};
ghost use Rattle.defines.specs.Held.{held};
ghost use Rattle.directives.specs.Unchanged.{Same, Beside};

use crate::processor::DirectiveProcessor;
use reading::definitions::{accept_define, keep_tokens};
use sources::source::Source;
use tokens::fault::{Fault, Layer, Step, StepExit};
use tokens::lexer::LexerToken;
use tokens::location::Location;

impl<S: Source> DirectiveProcessor<S> {
    // What was read and not accepted is given back; three lines at each of three readers, and one function would be no shorter.
    pub fn parse_define_directive(&mut self, directive_location: Location) -> Step<()>
        ensures handles { Grown (held self.old.defines) (held self.new.defines) }
        ensures segments { self.new.blocks ≡ self.old.blocks }
    {
        let (name, name_location) = self.reader.expect_lexer_ident(directive_location)?;
        match self.reader.read_define(&mut self.defines) {
            Ok(function_like) => {
                let accepted = accept_define(&mut self.defines, name, function_like, name_location);
                accepted.map_err(StepExit::Error)
            }
            Err(exit) => {
                self.defines.give_back();
                Err(exit)
            }
        }
    }

    pub fn parse_undef_directive(&mut self, directive_location: Location) -> Step<()>
        ensures handles { Grown (held self.old.defines) (held self.new.defines) }
        ensures segments { self.new.blocks ≡ self.old.blocks }
    {
        let (name, name_location) = self.reader.expect_lexer_ident(directive_location)?;
        self.defines.undefine(name);
        self.reader.expect_newline(name_location)
    }

    // A host's definition takes the place of a former one; refused, it leaves all as it was. What was read is given back here too.
    pub fn add_define(&mut self, name: u32, tokens: &[LexerToken]) -> Result<(), Fault>
        ensures handles { Grown (held self.old.defines) (held self.new.defines) }
        ensures names { Kept (held self.old.defines) (held self.new.defines) }
        ensures refused { OnErr result (Same self.old.defines self.new.defines) }
        ensures others { Beside self.old self.new }
    {
        if let Err(f) = keep_tokens(&mut self.defines, tokens) {
            self.defines.give_back();
            return Err(f);
        }
        let accepted = self.defines.accept(name, false);
        accepted.map_err(|error| Fault::new(error, Location::default(), Layer::Directives))
    }
}

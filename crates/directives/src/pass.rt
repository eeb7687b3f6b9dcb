// Live `#version`, `#extension` and `#pragma` pass as one token each.
ghost use Rattle.std.specs.Prelude.{◌≡◌};
ghost use Rattle.defines.specs.Held.{held};

use crate::processor::DirectiveProcessor;
use sources::source::Source;
use tokens::fault::Step;
use tokens::location::Location;
use tokens::token::{Extension, Part, Pragma, Token, TokenValue, Version};

impl<S: Source> DirectiveProcessor<S> {
    // The rest of the line is kept; broken off, it is given back, as a definition is: one function for them would be no shorter.
    fn keep_line(&mut self) -> Step<Part>
        ensures defs { held self.new.defines ≡ held self.old.defines }
        ensures segments { self.new.blocks ≡ self.old.blocks }
    {
        let first = self.reader.get_lexer_token()?;
        match self.reader.keep_until_newline(first, &mut self.defines) {
            Ok(()) => Ok(self.defines.pass()),
            Err(exit) => {
                self.defines.give_back();
                Err(exit)
            }
        }
    }

    // The rest of the line passes as one token; its value is made of the kept tokens.
    fn pass_line<F: FnOnce(&DirectiveProcessor<S>, Part) -> TokenValue>(
        &mut self,
        location: Location,
        value: F,
    ) -> Step<Token>
        requires { F.IsAlwaysCallable value }
        ensures defs { held self.new.defines ≡ held self.old.defines }
        ensures segments { self.new.blocks ≡ self.old.blocks }
    {
        let tokens = self.keep_line()?;
        Ok(Token {
            value: value(self, tokens),
            location,
        })
    }

    pub fn parse_version_directive(&mut self, location: Location) -> Step<Token>
        ensures defs { held self.new.defines ≡ held self.old.defines }
        ensures segments { self.new.blocks ≡ self.old.blocks }
    {
        let is_first_directive = !(self.had_directive || self.had_non_directive_token);
        self.pass_line(
            location,
            |this, tokens| TokenValue::Version(Version {
                tokens,
                is_first_directive,
                has_comments_before: this.reader.source.had_comments(),
            }),
        )
    }

    pub fn parse_extension_directive(&mut self, location: Location) -> Step<Token>
        ensures defs { held self.new.defines ≡ held self.old.defines }
        ensures segments { self.new.blocks ≡ self.old.blocks }
    {
        self.pass_line(
            location,
            |this, tokens| TokenValue::Extension(Extension {
                tokens,
                has_non_directive_before: this.had_non_directive_token,
            }),
        )
    }

    pub fn parse_pragma_directive(&mut self, location: Location) -> Step<Token>
        ensures defs { held self.new.defines ≡ held self.old.defines }
        ensures segments { self.new.blocks ≡ self.old.blocks }
    {
        self.pass_line(location, |_, tokens| TokenValue::Pragma(Pragma { tokens }))
    }
}
